// What a run comes to.
ghost use Rattle.std.specs.Prelude.{◌≡◌, IfOk};

use js_evaluation::Fault;
use std::alloc::Global;
use utf16_text::{Memory, Text, TextList};

/// How a run ended.
#[derive(Drop)]
pub enum Ending {
    /// What the function of the script returned.
    Result(Text),
    Fault(Fault),
}

/// How a run ended, and the alerts that are kept, in their order: the first 256, each of at most 1,024 units.
#[derive(Drop)]
pub struct Outcome {
    pub ending: Ending,
    pub alerts: TextList,
}

impl Ending {
    /// An equal ending.
    pub fn copy(&self, alloc: Global) -> Result<Ending, Memory>
        ensures { IfOk result (λ ending. ending ≡ self.now) }
    {
        match self {
            Ending::Result(text) => Ok(Ending::Result(text.copy(alloc)?)),
            Ending::Fault(fault) => Ok(Ending::Fault(copy_of(alloc, fault)?)),
        }
    }
}

fn copy_of(alloc: Global, fault: &Fault) -> Result<Fault, Memory>
    ensures { IfOk result (λ copy. copy ≡ fault.now) }
{
    let detail = fault.detail.copy(alloc)?;
    Ok(Fault {
        code: fault.code,
        place: fault.place,
        detail,
    })
}

impl Outcome {
    /// An equal outcome.
    pub fn copy(&self, alloc: Global) -> Result<Outcome, Memory>
        ensures { IfOk result (λ outcome. outcome ≡ self.now) }
    {
        let ending = self.ending.copy(alloc)?;
        let alerts = copy_texts(alloc, self.alerts.as_slice())?;
        Ok(Outcome { ending, alerts })
    }
}

fn copy_texts(alloc: Global, texts: &[Text]) -> Result<TextList, Memory>
    ensures { IfOk result (λ copies. copies ≡ texts.now) }
{
    let mut copies = TextList::new(alloc);
    for text in texts {
        copies.push(alloc, text.copy(alloc)?)?;
    }
    Ok(copies)
}
