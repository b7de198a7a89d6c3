// The statements of a term as text.
ghost use Rattle.std.specs.Prelude.{◌≡◌, ◌++◌, IfOk, OnOk};
ghost use Rattle.grammar.specs.Lawful.{statements as statements_of};
ghost use Rattle.features.specs.Model.{feature_names};
ghost use Rattle.terms.specs.Terms.{said_of};
ghost use Rattle.listing.specs.Shown.{variable_shown, feature_shown, statement_shown, line_shown, said_shown};

use features::table::Features;
use grammar::statement::Statement;
use orders::texts::WrittenOrder;
use showing::put_kind;
use std::alloc::{AllocError, Global};
use std::io::Write;
use terms::term::Term;

// Each part is added by a function and not by a `Display`: an order writes its kinds into lent memory, and names are bytes.
//
// What `write!` to a `Vec` fails with is want of memory: a `Vec` takes every byte.
//
// Variables are printed from X1. A `u128` has room for one more than any `usize`.
fn put_variable(variable: usize, text: &mut Vec<u8>) -> Result<(), AllocError>
    ensures { OnOk result (text.new.items ≡ text.old.items ++ variable_shown variable) }
{
    let number = variable as u128 + 1;
    write!(text, "X{number}").map_err(|_| AllocError)
}

// Adds the feature's name, or a question mark where there is no such feature.
fn put_feature(features: &Features, feature: usize, text: &mut Vec<u8>) -> Result<(), AllocError>
    ensures { OnOk result (text.new.items ≡ text.old.items ++ feature_shown (feature_names features.now) feature) }
{
    match features.name(feature) {
        Some(name) => text.extend_from_slice(name.as_slice()),
        None => text.extend_from_slice(b"?"),
    }
}

// What statements are shown with: the order that their kinds are of, and the features.
#[derive(Drop)]
pub struct Listing<'a, O> {
    pub order: &'a O,
    pub features: &'a Features,
}

impl<O: WrittenOrder> Listing<'_, O> {
    // Adds a statement, as `X1:any/1..9` or `X1.paid=X2`.
    pub fn put_statement(
        &self,
        statement: Statement<O::Kind>,
        text: &mut Vec<u8>,
    ) -> Result<(), AllocError>
        ensures { OnOk result (text.new.items ≡ text.old.items ++ statement_shown (O.texts self.now.order.now) (feature_names self.now.features.now) statement) }
    {
        match statement {
            Statement::Kind { variable, kind } => {
                put_variable(variable, text)?;
                text.push(b':')?;
                put_kind(self.order, kind, text)
            }
            Statement::Feature {
                variable,
                feature,
                value,
            } => {
                put_variable(variable, text)?;
                text.push(b'.')?;
                put_feature(self.features, feature, text)?;
                text.push(b'=')?;
                put_variable(value, text)
            }
        }
    }

    // The statement behind its number, on a line of its own: a line feed stands before each but the first.
    fn put_row(
        &self,
        number: usize,
        statement: Statement<O::Kind>,
        text: &mut Vec<u8>,
    ) -> Result<(), AllocError>
        ensures { OnOk result (text.new.items ≡ text.old.items ++ line_shown (O.texts self.now.order.now) (feature_names self.now.features.now) number statement) }
    {
        if number > 1 {
            text.push(b'\n')?;
        }
        write!(text, "{number} ").map_err(|_| AllocError)?;
        self.put_statement(statement, text)
    }

    // One line of text for each statement.
    fn put_rows(&self, term: &Term<O::Kind>, text: &mut Vec<u8>) -> Result<(), AllocError>
        ensures { OnOk result (text.new.items ≡ text.old.items ++ said_shown (O.texts self.now.order.now) (feature_names self.now.features.now) (statements_of (said_of term.now))) }
    {
        if term.statements() == 0 {
            return text.extend_from_slice(b"no statements");
        }
        // A term answers its statements by number, and the number is printed.
        for number in 1..=term.statements() {
            self.put_row(number, term.statement(number).unwrap(), text)?;
        }
        Ok(())
    }

    // One line of text for each statement, with a line feed between two.
    pub fn said_text(&self, term: &Term<O::Kind>, heap: Global) -> Result<Vec<u8>, AllocError>
        ensures { IfOk result (λ v. v.items ≡ said_shown (O.texts self.now.order.now) (feature_names self.now.features.now) (statements_of (said_of term.now))) }
    {
        let mut text = Vec::new(heap);
        self.put_rows(term, &mut text)?;
        Ok(text)
    }
}
