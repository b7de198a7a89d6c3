// The text of trials.
ghost use Rattle.std.specs.Prelude.{◌≡◌, ◌++◌, ◌∷◌, [], codes, decimal, OnOk};
ghost use Rattle.refusals.specs.Table.{row};
ghost use Rattle.trials.specs.Shown.{outcome_shown, trial_shown, trials_shown};

use crate::trial::{Outcome, Trial};
use orders::texts::WrittenOrder;
use refusals::Refusal;
use showing::put_kind;
use std::alloc::AllocError;
use std::io::Write;

// What `write!` to a `Vec` fails with is want of memory: a `Vec` takes every byte.

// Adds that a rule clashed, and at which statement.
fn put_clash(statement: usize, text: &mut Vec<u8>) -> Result<(), AllocError>
    ensures { OnOk result (text.new.items ≡ text.old.items ++ (codes "no " ++ decimal statement)) }
{
    write!(text, "no {statement}").map_err(|_| AllocError)
}

// Adds that a rule was refused, and the number of the refusal.
fn put_refused(refusal: Refusal, text: &mut Vec<u8>) -> Result<(), AllocError>
    ensures { OnOk result (text.new.items ≡ text.old.items ++ (codes "refused " ++ decimal (row refusal).number)) }
{
    let number = refusal.number();
    write!(text, "refused {number}").map_err(|_| AllocError)
}

// Adds what came of a rule: `yes` and the kind, `no` and the statement, or `refused` and the number of the refusal.
fn put_outcome<O: WrittenOrder>(
    order: &O,
    outcome: Outcome<O::Kind>,
    text: &mut Vec<u8>,
) -> Result<(), AllocError>
    ensures { OnOk result (text.new.items ≡ text.old.items ++ outcome_shown (O.texts order.now) outcome) }
{
    match outcome {
        Outcome::Yes { kind } => {
            text.extend_from_slice(b"yes ")?;
            put_kind(order, kind, text)
        }
        Outcome::No { statement } => put_clash(statement, text),
        Outcome::Refused { refusal } => put_refused(refusal, text),
    }
}

// Adds the number of the entry, that of the rule, and what came of it; no line feed.
pub fn put_trial<O: WrittenOrder>(
    order: &O,
    trial: Trial<O::Kind>,
    text: &mut Vec<u8>,
) -> Result<(), AllocError>
    ensures { OnOk result (text.new.items ≡ text.old.items ++ trial_shown (O.texts order.now) trial) }
{
    let Trial {
        entry,
        rule,
        outcome,
    } = trial;
    write!(text, "{entry} {rule} ").map_err(|_| AllocError)?;
    put_outcome(order, outcome, text)
}

// Adds a trial on a line of its own.
fn put_line<O: WrittenOrder>(
    order: &O,
    trial: Trial<O::Kind>,
    text: &mut Vec<u8>,
) -> Result<(), AllocError>
    ensures { OnOk result (text.new.items ≡ text.old.items ++ (trial_shown (O.texts order.now) trial ++ 10 ∷ [])) }
{
    put_trial(order, trial, text)?;
    text.push(b'\n')?;
    Ok(())
}

// Adds the trials, a line feed behind each.
pub fn put_trials<O: WrittenOrder>(
    order: &O,
    trials: &[Trial<O::Kind>],
    text: &mut Vec<u8>,
) -> Result<(), AllocError>
    ensures { OnOk result (text.new.items ≡ text.old.items ++ trials_shown (O.texts order.now) trials.now) }
{
    for trial in trials {
        put_line(order, *trial, text)?;
    }
    Ok(())
}
