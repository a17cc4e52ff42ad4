//! The register of a checksum, eight bytes at a step.
ghost use Rattle.std.specs.Prelude.{◌≡◌, ◌≤◌, ◌%◌, length, drop};
ghost use Rattle.blz_links.specs.Checksums.{bit_step, bit_steps, byte_step, checksum_from};
ghost use Rattle.blz_links.specs.ChecksumTables.{IsAfterByte, IsTable};

use blz_bytes::ByteOrder;
use blz_records::u64_in;

/// The polynomial, its highest power in the lowest bit.
const POLYNOMIAL: u32 = 0xedb8_8320;

// the register after one bit
#[tactic(auto, unfolding(crate::specs::Checksums::bit_step))]
fn bit_step(register: u32) -> u32
    ensures { result ≡ bit_step register }
{
    (register >> 1) ^ (register % 2 * POLYNOMIAL)
}

// the register after the bits of a byte
fn byte_steps(register: u32) -> u32
    ensures { result ≡ bit_steps 8 register }
{
    let mut register = register;
    for _ in 0..8u32 {
        register = bit_step(register);
    }
    register
}

// for each byte, what the register is after it
fn first_table() -> [u32; 256]
    ensures { IsTable 8 result }
{
    let mut table = [0; 256];
    for byte in 0..256u32 {
        table[byte as usize] = byte_steps(byte);
    }
    table
}

// the same after one zero byte more
fn next_table(table: &[u32; 256]) -> [u32; 256]
    ensures { IsAfterByte table.now result }
{
    let mut next = [0; 256];
    for byte in 0..256usize {
        next[byte] = byte_steps(table[byte]);
    }
    next
}

/// For each byte, what the register is after it and up to seven zero bytes.
#[derive(Drop)]
pub struct ChecksumTables {
    alone: [u32; 256],
    before_1: [u32; 256],
    before_2: [u32; 256],
    before_3: [u32; 256],
    before_4: [u32; 256],
    before_5: [u32; 256],
    before_6: [u32; 256],
    before_7: [u32; 256],
}

// the lowest byte
fn low_byte(word: u64) -> usize
    ensures { result ≡ word % 256 }
{
    (word % 256) as usize
}

impl ChecksumTables {
    ghost use Rattle.blz_links.specs.EightTables.{AreTables};

    /// The tables; takes no memory.
    pub fn new() -> ChecksumTables
        ensures { AreTables result }
    {
        let alone = first_table();
        let before_1 = next_table(&alone);
        let before_2 = next_table(&before_1);
        let before_3 = next_table(&before_2);
        let before_4 = next_table(&before_3);
        let before_5 = next_table(&before_4);
        let before_6 = next_table(&before_5);
        let before_7 = next_table(&before_6);
        ChecksumTables {
            alone,
            before_1,
            before_2,
            before_3,
            before_4,
            before_5,
            before_6,
            before_7,
        }
    }

    // the register after the 64 bits of a word, which it was put over
    fn after_word(&self, mixed: u64) -> u32
        requires { AreTables self.now }
        ensures { result ≡ bit_steps 64 mixed }
    {
        let rest_1 = mixed / 256;
        let rest_2 = rest_1 / 256;
        let rest_3 = rest_2 / 256;
        let rest_4 = rest_3 / 256;
        let rest_5 = rest_4 / 256;
        let rest_6 = rest_5 / 256;
        let rest_7 = rest_6 / 256;
        self.alone[low_byte(rest_7)]
            ^ self.before_1[low_byte(rest_6)]
            ^ self.before_2[low_byte(rest_5)]
            ^ self.before_3[low_byte(rest_4)]
            ^ self.before_4[low_byte(rest_3)]
            ^ self.before_5[low_byte(rest_2)]
            ^ self.before_6[low_byte(rest_1)]
            ^ self.before_7[low_byte(mixed)]
    }

    /// The register after as many whole words as there are, and how many bytes these have.
    pub fn after_words(&self, register: u32, bytes: &[u8]) -> (u32, usize)
        requires { AreTables self.now }
        ensures value { checksum_from result.0 (drop result.1 bytes.now)
            ≡ checksum_from register bytes.now }
        ensures within { result.1 ≤ length bytes.now }
    {
        let mut register = register;
        let mut at = 0;
        while bytes.len() - at >= 8 {
            let word = u64_in(bytes, at, ByteOrder::Little);
            register = self.after_word(u64::from(register) ^ word);
            at += 8;
        }
        (register, at)
    }

    // the register after a byte
    #[tactic(auto, unfolding(crate::specs::Checksums::checksum_from))]
    fn after_byte(&self, register: u32, byte: u8) -> u32
        requires { AreTables self.now }
        ensures { result ≡ byte_step register byte }
    {
        let mixed = register ^ u32::from(byte);
        (mixed >> 8) ^ self.alone[(mixed % 256) as usize]
    }

    /// The register after some bytes, one after the other.
    pub fn after_bytes(&self, register: u32, bytes: &[u8]) -> u32
        requires { AreTables self.now }
        ensures { result ≡ checksum_from register bytes.now }
    {
        let mut register = register;
        for byte in bytes {
            register = self.after_byte(register, *byte);
        }
        register
    }
}
