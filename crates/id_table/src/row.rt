ghost use Rattle.std.specs.Prelude.{◌≡◌, IfOk};

use lload_names::{Body, NoMemory, OpKind, OpName};

/// A Bind's success that is kept back until its identity is known, and the identifier of the message that asks for it.
#[derive(Debug, Drop)]
pub struct Kept {
    pub rest: Body,
    pub who: u32,
}

/// A live operation: its identifier on the connection, its name and kind, whether the identity behind its success is
/// asked for, when it was sent, when it was last answered or else sent (milliseconds), and the answer that is kept back.
#[derive(Debug, Drop)]
pub struct Row {
    pub id: u32,
    pub op: OpName,
    pub kind: OpKind,
    pub ask_who: bool,
    pub sent: u64,
    pub last: u64,
    pub kept: Option<Kept>,
}

impl Kept {
    /// The same again.
    pub fn copy(&self) -> Result<Kept, NoMemory>
        ensures { IfOk result (λ kept. kept ≡ self.now) }
    {
        Ok(Kept {
            rest: self.rest.copy()?,
            who: self.who,
        })
    }
}

impl Row {
    /// The same row again.
    pub fn copy(&self) -> Result<Row, NoMemory>
        ensures { IfOk result (λ row. row ≡ self.now) }
    {
        let kept = match &self.kept {
            Some(kept) => Some(kept.copy()?),
            None => None,
        };
        Ok(Row {
            id: self.id,
            op: self.op,
            kind: self.kind,
            ask_who: self.ask_who,
            sent: self.sent,
            last: self.last,
            kept,
        })
    }
}
