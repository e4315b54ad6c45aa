//! The line as a sender drives it, with the bits that stuffing inserts.
ghost use Rattle.std.specs.Prelude.{◌≡◌, ◌<◌};

use crate::bits::is_bit_set;

/// How many equal bits are followed by an inserted opposite one.
const LONGEST_RUN: u8 = 5;

/// How many bits were sent, and the run of equal bits that ends them.
#[derive(Clone, Copy, Debug)]
pub struct Line {
    pub run: u8,
    pub value: bool,
    /// Bits sent so far, inserted ones among them.
    pub sent: u64,
    ghost short: { run < 5 },
}

impl Line {
    ghost use Rattle.std.specs.Prelude.{◌+◌, ◌*◌, ◌≤◌, ◌^◌, [], ◌∷◌, length};
    ghost use Rattle.frame_ticks.specs.Bits.{number_bits, payload_bits};
    ghost use Rattle.frame_ticks.specs.Line.{Sends, run_at};
    ghost use Rattle.frame_ticks.specs.Stuffing.{no_run, run_with};

    /// The line before a frame.
    pub fn idle() -> Line
        ensures run { run_at result ≡ no_run }
        ensures sent { result.sent ≡ 0 }
    {
        Line {
            run: 0,
            value: true,
            sent: 0,
        }
    }

    /// How many equal bits would end with this one.
    fn run_with(&self, bit: bool) -> u8
        ensures { result ≡ run_with self.now.run self.now.value bit }
    {
        if bit == self.value { self.run + 1 } else { 1 }
    }

    /// Sends one bit, and the one inserted after it where it is the fifth of a run.
    pub fn send(&mut self, bit: bool)
        requires { self.old.sent + 2 < 2 ^ 64 }
        ensures sends { Sends self.old self.new (bit ∷ []) }
        ensures few { self.new.sent ≤ self.old.sent + 2 }
    {
        let run = self.run_with(bit);
        self.sent += 1;
        if run == LONGEST_RUN {
            self.sent += 1;
            self.run = 1;
            self.value = !bit;
        } else {
            self.run = run;
            self.value = bit;
        }
    }

    /// Sends each bit.
    pub fn send_all(&mut self, bits: &[bool])
        requires { self.old.sent + 2 * length bits.now < 2 ^ 64 }
        ensures sends { Sends self.old self.new bits.now }
        ensures few { self.new.sent ≤ self.old.sent + 2 * length bits.now }
    {
        for bit in bits {
            self.send(*bit);
        }
    }

    /// Sends the lowest `count` bits of a number, the most significant first.
    pub fn send_number(&mut self, number: u32, count: u32)
        requires few { count ≤ 32 }
        requires room { self.old.sent + 2 * count < 2 ^ 64 }
        ensures sends { Sends self.old self.new (number_bits count number) }
        ensures few { self.new.sent ≤ self.old.sent + 2 * count }
    {
        for place in (0..count).rev() {
            self.send(is_bit_set(number, place));
        }
    }

    /// Sends the bits of each byte.
    pub fn send_payload(&mut self, payload: &[u8])
        requires { self.old.sent + 16 * length payload.now < 2 ^ 64 }
        ensures sends { Sends self.old self.new (payload_bits payload.now) }
        ensures few { self.new.sent ≤ self.old.sent + 16 * length payload.now }
    {
        for byte in payload {
            self.send_number(u32::from(*byte), 8);
        }
    }
}
