//! Rows of arguments, which wait on the heap.
ghost use Rattle.std.specs.Prelude.{◌≡◌, List, Some, IfOk};
ghost use Rattle.lf.specs.Entries.{Entry};
ghost use Rattle.lf.specs.Syntax.{Skeleton as PlainSkeleton};
ghost use Rattle.lf_elaboration.specs.Written.{applied as applied_of};
ghost use Rattle.tw_fixity.specs.Names.{Names};
ghost use Rattle.tw_parse.specs.Applied.{written_terms};
ghost use Rattle.tw_parse.specs.View.{term_of};
ghost use Rattle.tw_resolve.specs.Rows.{on_arguments, rows_read, next_read};
ghost use Rattle.tw_written.specs.View.{written_of};

use std::alloc::{AllocError, Global};
use tw_parse::ExtTerm;
use tw_written::Written;

/// A row that waits for its next argument: what the argument is put to, and the arguments that are left then, the last one first.
#[derive(Drop)]
pub struct Begun<'a> {
    pub function: Written,
    pub arguments: Vec<&'a ExtTerm>,
}

/// What is to be done next.
#[derive(Drop)]
pub enum Next<'a> {
    /// The last row that waits does so for this argument.
    Argument(&'a ExtTerm),
    /// All arguments are there, and make this.
    Nothing(Written),
}

/// What is to be done next where this has these arguments left, the last one first, and these rows wait for it. A row that ends is put to the one that waits for it. No number of rows is too
/// many: what they come to may nest to any depth, since a loop drops it.
pub fn advance<'a>(
    alloc: Global,
    waiting: &mut Vec<Begun<'a>>,
    function: Written,
    arguments: Vec<&'a ExtTerm>,
) -> Result<Next<'a>, AllocError>
    ensures { (es : List Entry) (free N : Names) (o : List PlainSkeleton) → IfOk result (λ n. next_read es free N waiting.new.items n o ≡ rows_read es free N waiting.old.items (on_arguments es free N (written_terms arguments.entry.items) (Some (written_of function, o)))) }
{
    let mut function = function;
    let mut arguments = arguments;
    loop {
        match arguments.pop() {
            Some(argument) => {
                waiting.push(Begun {
                    function,
                    arguments,
                })?;
                return Ok(Next::Argument(argument));
            }
            None => match waiting.pop() {
                Some(row) => {
                    function = applied(alloc, row.function, function)?;
                    arguments = row.arguments;
                }
                None => return Ok(Next::Nothing(function)),
            },
        }
    }
}

/// A term on an argument.
fn applied(alloc: Global, function: Written, argument: Written) -> Result<Written, AllocError>
    ensures { IfOk result (λ w. written_of w ≡ applied_of (written_of function) (written_of argument)) }
{
    let function = Box::new(alloc, function)?;
    Ok(Written::Applied(function, Box::new(alloc, argument)?))
}
