// The registers of the machine.
ghost use Rattle.std.specs.Prelude.{◌≡◌, ◌≤◌, Some, slice_set};
ghost use Rattle.bpf_insn.specs.Machine.{reg_of, args_of, after_call, entry_regs};

use bpf_insn::address::{CONTEXT, FRAME, PAYLOAD};
use bt_core::limits::FRAME_BYTES;
use std::marker::Model;

/// R0 to R10: the number of each, and which of them are set. The number of one that is not set is 0.
#[derive(Drop)]
pub struct Registers {
    words: [u64; 11],
    set: [bool; 11],
}

impl Model for Registers {
    ghost use Rattle.std.specs.Prelude.{◌≡◌, ℕ, List, Option};
    ghost use Rattle.bpf_interp.specs.Values.{values_of, words_of};

    ghost Value = { List (Option ℕ) };

    ghost view = { λ r. values_of r.set r.words };

    ghost invariant = { λ r. words_of (values_of r.set r.words) ≡ r.words };
}

impl Registers {
    /// The registers at entry: R1 holds the address of the context, R2 that of the payload, and R10
    /// the end of the frame.
    #[inline(always)]
    pub fn at_entry() -> Registers
        ensures { result ≡ entry_regs }
    {
        Registers {
            words: [
                0,
                CONTEXT,
                PAYLOAD,
                0,
                0,
                0,
                0,
                0,
                0,
                0,
                FRAME + FRAME_BYTES,
            ],
            set: [
                false, true, true, false, false, false, false, false, false, false, true,
            ],
        }
    }

    /// The number of a register, where it is set.
    #[inline(always)]
    pub fn read(&self, register: u8) -> Option<u64>
        requires { register ≤ 10 }
        ensures { result ≡ reg_of self.now register }
    {
        let place = register as usize;
        if self.set[place] {
            Some(self.words[place])
        } else {
            None
        }
    }

    /// Sets a register.
    #[inline(always)]
    pub fn write(&mut self, register: u8, value: u64)
        requires { register ≤ 10 }
        ensures { self.new ≡ slice_set self.old register (Some value) }
    {
        let place = register as usize;
        self.words[place] = value;
        self.set[place] = true;
    }

    /// The arguments of a call.
    #[inline(always)]
    pub fn arguments(&self) -> [u64; 5]
        ensures { result ≡ args_of self.now }
    {
        [
            self.words[1],
            self.words[2],
            self.words[3],
            self.words[4],
            self.words[5],
        ]
    }

    /// Takes the answer of a call: R0 is set to it, and R1 to R5 are set no more.
    #[inline(always)]
    pub fn answer(&mut self, number: u64)
        ensures { self.new ≡ after_call self.old number }
    {
        self.words[0] = number;
        self.set[0] = true;
        self.words[1] = 0;
        self.set[1] = false;
        self.words[2] = 0;
        self.set[2] = false;
        self.words[3] = 0;
        self.set[3] = false;
        self.words[4] = 0;
        self.set[4] = false;
        self.words[5] = 0;
        self.set[5] = false;
    }
}
