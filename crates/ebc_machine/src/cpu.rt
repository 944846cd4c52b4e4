ghost use Rattle.std.specs.Prelude.{◌≡◌};

use ebc_decode::Size;
use fw_types::Cause;

/// The registers of the virtual machine (UEFI 2.8, chapter 22, 'Virtual Machine Architecture').
#[derive(Clone, Copy, Debug, PartialEq, Eq)]
pub struct Cpu {
    /// The general purpose registers R0 to R7, of which R0 is the stack pointer.
    pub r: [u64; 8],
    /// The dedicated register FLAGS, whose bit 0 is the condition flag C.
    pub flags: u64,
    /// The dedicated register IP, the address of the next instruction.
    pub ip: u64,
}

impl Cpu {
    ghost use Rattle.ebc_machine.specs.PutBack.{put_back};

    /// Puts IP and R0, the stack pointer, back to what they were.
    pub(crate) fn put_back(&mut self, ip: u64, top: u64)
        ensures { self.new ≡ put_back self.old ip top }
    {
        self.ip = ip;
        self.r[0] = top;
    }
}

/// How a step ended.
#[derive(Clone, Copy, Debug, PartialEq, Eq)]
pub enum StepOut {
    /// The instruction is done.
    Next,
    /// The instruction is done, and asks for a call of the native code at the address.
    Native(u64),
    /// The instruction is done, and asks for a thunk for the 8 bytes at the address.
    MakeThunk(u64),
    /// IP is the exit address: the code has returned.
    Done,
    /// The instruction can't be done. Registers and memory are as they were.
    Trap(Cause),
}

/// What an instruction asks the firmware for when it is done.
#[derive(Clone, Copy, Debug, PartialEq, Eq)]
pub enum Request {
    /// It asks for nothing, and the code goes on.
    Nothing,
    /// It asks for a call of the native code at the address.
    Native(u64),
    /// It asks for a thunk for the 8 bytes at the address.
    MakeThunk(u64),
}

impl Request {
    ghost use Rattle.ebc_machine.specs.Outcome.{outcome};

    /// How a step ends if its instruction makes the request.
    pub fn outcome(self) -> StepOut
        ensures { result ≡ outcome self }
    {
        match self {
            Request::Nothing => StepOut::Next,
            Request::Native(target) => StepOut::Native(target),
            Request::MakeThunk(place) => StepOut::MakeThunk(place),
        }
    }
}

/// The write at the end of an instruction: the lowest bytes of a value go to an address.
#[derive(Clone, Copy, Debug, PartialEq, Eq)]
pub struct Store {
    pub at: u64,
    pub size: Size,
    pub value: u64,
}

/// What is left of an instruction after its registers are computed: at most one write, and a
/// request.
#[derive(Clone, Copy, Debug, PartialEq, Eq)]
pub struct Rest {
    pub store: Option<Store>,
    pub request: Request,
}
