//! The judge: a stack of copies of all numbers, one for each open group. Whatever it says, it says by copying.
use crate::script::Step;
use engine::target::Scope;
use std::alloc::{AllocError, Global};
use tokens::code::is_code;
use tokens::group::GroupKind;
use values::plain::PLAIN_COUNTS;

/// The numbers of all count registers of the small model.
pub type Numbers = [i32; PLAIN_COUNTS as usize];

/// A group that is open: its kind, and the numbers as they were when it was opened, or as global assignments left them.
#[derive(Clone, Copy)]
struct Outer {
    kind: GroupKind,
    numbers: Numbers,
}

/// What the judge says of a sequence of calls: how many are carried out, and the numbers after them.
#[derive(Drop)]
pub struct Verdict {
    pub carried_out: usize,
    pub numbers: Numbers,
}

/// The numbers now, and those of the groups around.
#[derive(Drop)]
struct Judge {
    numbers: Numbers,
    outer: Vec<Outer>,
}

impl Judge {
    /// Outside all groups, with every number 0.
    fn new(heap: Global) -> Judge {
        Judge {
            numbers: [0; PLAIN_COUNTS as usize],
            outer: Vec::new(heap),
        }
    }

    /// Works a call: whether it is carried out (unwinding always is).
    fn work(&mut self, step: Step) -> Result<bool, AllocError> {
        let is_carried_out = match step {
            Step::Open(group) => {
                self.outer.push(Outer {
                    kind: group.kind,
                    numbers: self.numbers,
                })?;
                true
            }
            Step::Close(kind) => self.close(kind),
            Step::Unwind(level) => {
                self.unwind(level);
                true
            }
            Step::Assign {
                scope,
                register,
                number,
            } => {
                self.assign(scope, register, number);
                true
            }
            Step::Hold(code) => is_code(code),
        };
        Ok(is_carried_out)
    }

    /// Closes the current group, if it is of the kind: whether it is.
    fn close(&mut self, kind: GroupKind) -> bool {
        let Some(outer) = self.outer.pop_if(|outer| outer.kind == kind) else {
            return false;
        };
        let numbers = outer.numbers;
        self.numbers = numbers;
        true
    }

    /// Closes groups while the level is at least the given one. Level 2 is that inside the outermost group.
    fn unwind(&mut self, level: u8) {
        let kept = usize::from(level).saturating_sub(2);
        if let Some(outer) = self.outer.get(kept) {
            self.numbers = outer.numbers;
            self.outer.truncate(kept);
        }
    }

    /// Writes the number, and if the assignment is global into the copies too.
    fn assign(&mut self, scope: Scope, register: u8, number: i32) {
        let at = usize::from(register);
        self.numbers[at] = number;
        if scope == Scope::Global {
            for outer in self.outer.iter_mut() {
                outer.numbers[at] = number;
            }
        }
    }
}

/// What the judge says of the calls.
pub(crate) fn judged(heap: Global, steps: &[Step]) -> Result<Verdict, AllocError> {
    let mut judge = Judge::new(heap);
    let mut carried_out: usize = 0;
    for step in steps {
        if judge.work(*step)? {
            carried_out = carried_out.saturating_add(1);
        }
    }
    Ok(Verdict {
        carried_out,
        numbers: judge.numbers,
    })
}
