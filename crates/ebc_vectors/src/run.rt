ghost use Rattle.std.specs.Prelude.{◌<◌, IfOk};

use anyhow::{Context, Result};
use ebc_machine::{Cpu, StepOut, step};
use guest_memory::address_map::EXIT;
use guest_memory::{GuestMem, Memory, SegKind};
use std::alloc::Global;

/// The address of the code.
const CODE: u64 = 0x200_0000;

/// The address of the data.
const DATA: u64 = 0x1_0000_0000;

/// The address of the stack of a call, and its size in bytes.
const STACK: u64 = 0x81_0000;

const STACK_SIZE: usize = 0x1_0000;

/// The address of the frame of the call, which begins with the exit address.
const FRAME: u64 = 0x81_FF70;

/// The most instructions of a run.
const MOST_STEPS: u32 = 1000;

/// One run: its id, the code, and the state before and after it.
#[derive(Clone, Copy)]
pub struct Run<'a> {
    pub id: &'a str,
    pub code: &'a str,
    pub before: State<'a>,
    pub after: State<'a>,
}

/// Registers, FLAGS and data, as the line writes them.
#[derive(Clone, Copy)]
pub struct State<'a> {
    pub registers: &'a str,
    pub flags: &'a str,
    pub data: &'a str,
}

impl<'a> Run<'a> {
    /// Reads the run of a line, if it has eight fields.
    pub fn of(line: &'a str) -> Option<Run<'a>> {
        let mut fields = line.split('|');
        let id = fields.next()?;
        let code = fields.next()?;
        let before = State {
            registers: fields.next()?,
            flags: fields.next()?,
            data: fields.next()?,
        };
        let after = State {
            registers: fields.next()?,
            flags: fields.next()?,
            data: fields.next()?,
        };
        Some(Run {
            id,
            code,
            before,
            after,
        })
    }

    /// Whether the code, run from the state before, leaves the state after.
    pub fn agrees(&self, alloc: Global) -> Result<bool> {
        let mut memory = self.memory(alloc)?;
        let mut cpu = self.cpu()?;
        if !self.is_done(&mut cpu, &mut memory)? {
            return Ok(false);
        }
        let data = memory.unmap(DATA)?;
        let wanted = bytes_of(alloc, self.after.data)?;
        Ok(
            cpu.r == registers_of(self.after.registers, 0)?
                && cpu.flags == number_of(self.after.flags)?
                && data.bytes.as_slice() == wanted.as_slice(),
        )
    }

    /// The memory before the run.
    fn memory(&self, alloc: Global) -> Result<Memory> {
        let mut memory = Memory::new(alloc);
        memory.map(CODE, bytes_of(alloc, self.code)?, SegKind::Image)?;
        memory.map(DATA, bytes_of(alloc, self.before.data)?, SegKind::Pool)?;
        memory.map(STACK, vec![in alloc; 0; STACK_SIZE]?, SegKind::Stack)?;
        memory.write(FRAME, 8, EXIT)?;
        Ok(memory)
    }

    /// The registers before the run.
    fn cpu(&self) -> Result<Cpu> {
        let mut r = registers_of(self.before.registers, 1)?;
        r[0] = FRAME;
        Ok(Cpu {
            r,
            flags: number_of(self.before.flags)?,
            ip: CODE,
        })
    }

    /// Steps until IP is at the end of the code, and says whether it came there.
    fn is_done(&self, cpu: &mut Cpu, memory: &mut Memory) -> Result<bool> {
        let end = CODE.wrapping_add(self.code.len() as u64 / 2);
        for _ in 0..MOST_STEPS {
            if cpu.ip == end {
                return Ok(true);
            }
            if step(cpu, memory)? != StepOut::Next {
                return Ok(false);
            }
        }
        Ok(false)
    }
}

/// The bytes of a text with two hexadecimal digits for each.
fn bytes_of(alloc: Global, text: &str) -> Result<Vec<u8>> {
    let mut bytes = Vec::new(alloc);
    for pair in text.as_bytes().chunks_exact(2) {
        let high = digit_of(pair[0])?;
        let low = digit_of(pair[1])?;
        bytes.push(16 * high + low)?;
    }
    Ok(bytes)
}

/// The value of a hexadecimal digit.
fn digit_of(digit: u8) -> Result<u8>
    ensures { IfOk result (λ value. value < 16) }
{
    match digit {
        b'0'..=b'9' => Ok(digit - b'0'),
        b'a'..=b'f' => Ok(digit - b'a' + 10),
        _ => anyhow::bail!("no hexadecimal digit: {digit}"),
    }
}

/// The registers from `first` on, separated by blanks.
fn registers_of(text: &str, first: usize) -> Result<[u64; 8]> {
    let mut r = [0; 8];
    let mut words = text.split(' ');
    for i in first..8 {
        r[i] = number_of(words.next().context("a register is missing")?)?;
    }
    Ok(r)
}

/// The value of a hexadecimal number.
fn number_of(word: &str) -> Result<u64> {
    u64::from_str_radix(word, 16).context("no hexadecimal number")
}
