ghost use Rattle.std.specs.Prelude.{◌≡◌, IfOk, OnOk, OnErr};
ghost use Rattle.id_table.specs.Calls.{answer_to, answers_to, behind, behind_all, IsBehindFirst};

use crate::row::{Kept, Row};
use crate::rows::Rows;
use crate::table::TableOf;
use lload_names::{NoMemory, OpKind, OpName};
use std::alloc::Global;

/// A call of a table. Of `Give` and `Own` an identifier is only given where one is left.
#[derive(Debug, Drop)]
pub enum Call {
    Give {
        op: OpName,
        kind: OpKind,
        ask_who: bool,
        now: u64,
    },
    Own,
    Row(u32),
    Find(OpName),
    Touch {
        id: u32,
        now: u64,
    },
    Keep {
        id: u32,
        now: u64,
        kept: Kept,
    },
    End(u32),
    Finish(u32),
    AtLimit,
}

/// What a call answers: the identifier that was given or found, the row that is live or was taken out, whether the
/// limit was reached, or nothing.
#[derive(Debug, Drop)]
pub enum Answer {
    Id(Option<u32>),
    Row(Option<Row>),
    Done,
    AtLimit(bool),
}

/// Makes a call. For want of memory nothing changes.
pub fn make_call<R: Rows>(table: &mut TableOf<R>, call: &Call) -> Result<Answer, NoMemory>
    ensures answer { IfOk result (λ answer. answer ≡ answer_to call.now table.old) }
    ensures table { OnOk result (table.new ≡ behind call.now table.old) }
    ensures err { OnErr result (table.new ≡ table.old) }
{
    Ok(match call {
        Call::Give {
            op,
            kind,
            ask_who,
            now,
        } => {
            if table.at_limit() {
                Answer::Id(None)
            } else {
                Answer::Id(Some(table.give(*op, *kind, *ask_who, *now)?))
            }
        }
        Call::Own => {
            if table.may_own() {
                Answer::Id(Some(table.own()))
            } else {
                Answer::Id(None)
            }
        }
        Call::Row(id) => match table.row(*id) {
            Some(row) => Answer::Row(Some(row.copy()?)),
            None => Answer::Row(None),
        },
        Call::Find(op) => Answer::Id(table.find(*op)),
        Call::Touch { id, now } => {
            table.touch(*id, *now);
            Answer::Done
        }
        Call::Keep { id, now, kept } => {
            table.keep(*id, *now, kept.copy()?);
            Answer::Done
        }
        Call::End(id) => Answer::Row(table.end(*id)),
        Call::Finish(id) => Answer::Row(table.finish(*id)),
        Call::AtLimit => Answer::AtLimit(table.at_limit()),
    })
}

/// Makes calls in their order. What they answer and leave is the same however the rows are kept. For want of memory
/// the first calls were made, up to one that wanted it.
pub fn run<R: Rows>(
    alloc: Global,
    table: &mut TableOf<R>,
    calls: &[Call],
) -> Result<Vec<Answer>, NoMemory>
    ensures answers { IfOk result (λ answers. answers.items ≡ answers_to calls.now table.old) }
    ensures table { OnOk result (table.new ≡ behind_all calls.now table.old) }
    ensures err { OnErr result (IsBehindFirst calls.now table.old table.new) }
{
    let mut answers = Vec::with_capacity(alloc, calls.len())?;
    for next in calls {
        answers.push_reserved(make_call(table, next)?);
    }
    Ok(answers)
}
