// What is wrong with a file.
ghost use Rattle.std.specs.Prelude.{◌≡◌};
ghost use Rattle.market.specs.declared.refusal.Refusal.TheVariants.{FileTooLong};

use market::refusal::Refusal;

// The reason (15, 16 or 17), and the byte place of the record that has it.
#[derive(Clone, Copy, PartialEq, Eq, Debug)]
pub struct Fault {
    pub reason: Refusal,
    pub place: usize,
}

impl Fault {
    // The fault of a file that is longer than 65,536 bytes.
    pub fn too_long() -> Fault
        ensures { result ≡ record { reason = FileTooLong; place = 65536 } }
    {
        Fault {
            reason: Refusal::FileTooLong,
            place: 65_536,
        }
    }
}
