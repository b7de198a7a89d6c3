// The work of the programs that try a file's rules on its entries.
//
// `answer`        the text that answers a file: what comes of every rule on every entry, or why the file is refused
// `answer_input`  the same for a program's input, which is read whole
#![tactic(auto)]

ghost use Rattle.std.specs.Prelude.{◌≡◌, ◌∷◌, [], ◌++◌, IfOk, IfSome, map, length, take, vec_items, codes};
ghost use Rattle.refusals.specs.Table.{row, printed};
ghost use Rattle.features.specs.Model.{feature_names};
ghost use Rattle.trials.specs.Shown.{trials_shown};
ghost use Rattle.trials.specs.Trials.{trials};
ghost use Rattle.compiler.specs.Views.{statements_in};
ghost use Rattle.answering.specs.Answers.{Answers};

use files::made::OfList;
use files::memory::Memory;
use files::{Book, LONGEST_FILE, read_file};
use refusals::Refusal;
use showing::LONGEST_KIND;
use std::alloc::{AllocError, Global};
use std::io::{self, Read, Write};
use trials::text::put_trials;
use trials::try_all;

// How many bytes a line of the text has at most: two numbers of three digits, `yes`, the blanks, a kind as long as one is shown, and the feed.
const LONGEST_LINE: usize = 3 + 1 + 3 + 1 + 3 + 1 + LONGEST_KIND + 1;

// Reads an input whole. Of one that is longer than a file may be, one byte more than a file may have is kept: it will be refused for its
// length, and the rest is read and dropped.
fn read_input<R: Read + Drop>(input: R, heap: Global) -> io::Result<Vec<u8>>
    ensures { IfOk result (λ file. IfSome (R.remaining input) (λ bytes. file.items ≡ take 60001 bytes)) }
{
    let mut file = Vec::with_capacity(heap, LONGEST_FILE + 1)?;
    let mut first = input.take(LONGEST_FILE as u64 + 1);
    first.read_to_end(&mut file)?;
    io::copy(&mut first.into_inner(), &mut io::sink())?;
    Ok(file)
}

// The text of a file's refusal.
fn refused_text(refusal: Refusal, heap: Global) -> Result<Vec<u8>, AllocError>
    ensures { IfOk result (λ text. text.items ≡ codes "file refused " ++ (printed (row refusal) ++ 10 ∷ [])) }
{
    let mut text = Vec::new(heap);
    // What `write!` to a `Vec` fails with is want of memory: a `Vec` takes every byte.
    write!(text, "file refused {refusal}\n").map_err(|_| AllocError)?;
    Ok(text)
}

// The text of what comes of a book's rules on its entries.
fn tried_text<K: Copy, O: OfList<Kind = K>>(
    book: &Book<K, O>,
    heap: Global,
) -> Result<Vec<u8>, AllocError>
    ensures { IfOk result (λ text. text.items ≡ trials_shown (O.texts book.now.order) (trials (O.meaning book.now.order) (length (feature_names book.now.features)) (map statements_in (vec_items book.now.entries)) (map statements_in (vec_items book.now.rules)))) }
{
    let trials = try_all(
        &book.order,
        book.features.len(),
        book.entries.as_slice(),
        book.rules.as_slice(),
        heap,
    )?;
    let mut text = Vec::with_capacity(heap, trials.len().saturating_mul(LONGEST_LINE))?;
    put_trials(&book.order, trials.as_slice(), &mut text)?;
    Ok(text)
}

// The text that answers a file.
pub fn answer<K: Copy, O: OfList<Kind = K> + Drop>(
    file: &[u8],
    heap: Global,
) -> Result<Vec<u8>, AllocError>
    ensures { IfOk result (λ text. Answers (λ l. O.meaning (O.made l)) (λ l. O.texts (O.made l)) file.now text.items) }
{
    let memory = Memory::new(heap)?;
    match read_file(memory, file) {
        Ok(book) => {
            let book: Book<K, O> = book;
            tried_text(&book, heap)
        }
        Err(refusal) => refused_text(refusal, heap),
    }
}

// The text that answers an input, which is read whole, as a file.
pub fn answer_input<K: Copy, O: OfList<Kind = K> + Drop, R: Read + Drop>(
    input: R,
    heap: Global,
) -> io::Result<Vec<u8>>
    ensures { IfOk result (λ text. IfSome (R.remaining input) (λ bytes. Answers (λ l. O.meaning (O.made l)) (λ l. O.texts (O.made l)) bytes text.items)) }
{
    let file = read_input(input, heap)?;
    let text = answer::<K, O>(file.as_slice(), heap)?;
    Ok(text)
}
