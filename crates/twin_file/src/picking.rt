//! Which of two files is taken.

ghost use Rattle.twin_file.specs.Picking.{IsPicked};

use block_file::FileHead;

/// The file that is taken.
#[derive(Clone, Copy)]
pub struct Picked {
    pub in_a: bool,
    pub head: FileHead,
}

/// The open file of the greater generation, and the first where they are equal.
pub fn pick(first: Option<FileHead>, second: Option<FileHead>) -> Option<Picked>
    ensures { IsPicked first second result }
{
    match (first, second) {
        (None, None) => None,
        (Some(head), None) => Some(Picked { in_a: true, head }),
        (None, Some(head)) => Some(Picked { in_a: false, head }),
        (Some(first), Some(second)) => {
            if first.generation < second.generation {
                Some(Picked {
                    in_a: false,
                    head: second,
                })
            } else {
                Some(Picked {
                    in_a: true,
                    head: first,
                })
            }
        }
    }
}
