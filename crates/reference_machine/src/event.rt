use bench_model::Choice;
use cu_base::{Blob, EfiTime, Text};

/// An event of a script. A delivery's bytes are those of a named input.
#[derive(Drop)]
pub enum Event {
    /// It is this moment from now on.
    Time(EfiTime),
    /// A capsule file is put into the update folder.
    Drop { file: Text, input: Text },
    /// The system asks for the capsule files to be taken at the next boot.
    Signal,
    /// The bytes of an input are laid into memory at an address.
    Lay { at: u64, input: Text },
    /// Bytes are laid into memory at an address.
    Poke { at: u64, bytes: Blob },
    /// UpdateCapsule is called with the scatter list at an address.
    Stage { at: u64 },
    /// The platform boots.
    Boot,
    /// The power is cut at the step after the next `after` ones.
    Arm { after: u32, choice: Choice },
    /// The `nth` call of the flash and the volume from now on fails, counted from 1.
    Fail { nth: u32 },
    /// The platform is reset. A cold reset loses the memory.
    Reset { cold: bool },
    /// What the platform shows is printed.
    Show,
}
