// Each kind of record, field by field.
ghost use Rattle.std.proofs.Common.{lit≤};
ghost use Rattle.rules.specs.Records.{header_at, declaration_at, constructor_at, head_at, alternative_at, instruction_at};
ghost use Rattle.rules.proofs.SameLaws.{header_same, declaration_same, constructor_same, head_same, alternative_same, instruction_same};

use crate::bytes::{byte_from, four_from, word_from};
use crate::record::Record;
use rules::records::{
    AlternativeRecord, ConstructorRecord, Declaration, HeadRecord, Header, InstructionRecord,
};

// The header.
impl Record for Header {
    const SIZE: usize = 4;

    ghost SIZE = { 4 };

    ghost record_at = { header_at };

    ghost some = { lit≤ tt };

    ghost short = { lit≤ tt };

    ghost same = { λ a p b q s. header_same (record { at = s }) };

    fn read(file: &[u8], place: usize, left: usize) -> Header {
        Header {
            edition: byte_from(file, place, left, 0),
            types: byte_from(file, place, left, 1),
            constructors: byte_from(file, place, left, 2),
            functions: byte_from(file, place, left, 3),
        }
    }
}

// What a constructor and a function head both begin with.
impl Record for Declaration {
    const SIZE: usize = 6;

    ghost SIZE = { 6 };

    ghost record_at = { declaration_at };

    ghost some = { lit≤ tt };

    ghost short = { lit≤ tt };

    ghost same = { λ a p b q s. declaration_same (record { at = s }) };

    fn read(file: &[u8], place: usize, left: usize) -> Declaration {
        Declaration {
            result: byte_from(file, place, left, 0),
            arity: byte_from(file, place, left, 1),
            types: four_from(file, place, left, 2),
        }
    }
}

// A constructor.
impl Record for ConstructorRecord {
    const SIZE: usize = 8;

    ghost SIZE = { 8 };

    ghost record_at = { constructor_at };

    ghost some = { lit≤ tt };

    ghost short = { lit≤ tt };

    ghost same = { λ a p b q s. constructor_same (record { at = s }) };

    fn read(file: &[u8], place: usize, left: usize) -> ConstructorRecord {
        ConstructorRecord {
            declaration: Declaration::read(file, place, left),
            weight: byte_from(file, place, left, 6),
            reserved: byte_from(file, place, left, 7),
        }
    }
}

// A function head.
impl Record for HeadRecord {
    const SIZE: usize = 10;

    ghost SIZE = { 10 };

    ghost record_at = { head_at };

    ghost some = { lit≤ tt };

    ghost short = { lit≤ tt };

    ghost same = { λ a p b q s. head_same (record { at = s }) };

    fn read(file: &[u8], place: usize, left: usize) -> HeadRecord {
        HeadRecord {
            declaration: Declaration::read(file, place, left),
            alternatives: byte_from(file, place, left, 6),
            reserved: byte_from(file, place, left, 7),
            instructions: word_from(file, place, left, 8),
        }
    }
}

// An alternative of a size bound.
impl Record for AlternativeRecord {
    const SIZE: usize = 6;

    ghost SIZE = { 6 };

    ghost record_at = { alternative_at };

    ghost some = { lit≤ tt };

    ghost short = { lit≤ tt };

    ghost same = { λ a p b q s. alternative_same (record { at = s }) };

    fn read(file: &[u8], place: usize, left: usize) -> AlternativeRecord {
        AlternativeRecord {
            coefficients: four_from(file, place, left, 0),
            constant: word_from(file, place, left, 4),
        }
    }
}

// An instruction.
impl Record for InstructionRecord {
    const SIZE: usize = 4;

    ghost SIZE = { 4 };

    ghost record_at = { instruction_at };

    ghost some = { lit≤ tt };

    ghost short = { lit≤ tt };

    ghost same = { λ a p b q s. instruction_same (record { at = s }) };

    fn read(file: &[u8], place: usize, left: usize) -> InstructionRecord {
        InstructionRecord {
            operation: byte_from(file, place, left, 0),
            a: byte_from(file, place, left, 1),
            b: word_from(file, place, left, 2),
        }
    }
}
