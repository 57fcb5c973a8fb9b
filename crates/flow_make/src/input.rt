//! The words, the lines and the whole of an input.
ghost use Rattle.std.specs.Prelude.{◌≡◌, ◌++◌, OnOk, IfOk};
ghost use Rattle.flow_make.specs.Numbers.{number_at};
ghost use Rattle.flow_make.specs.Lines.{ended, text_of};
ghost use Rattle.flow_make.specs.Input.{word_of, line_from, input_lines, words_in_line};

use crate::generator::Generator;
use std::alloc::{AllocError, Global};

const LONGEST_WORD: u32 = 9;

const LENGTH_UNIT: u32 = 65_536;

const LETTERS: u32 = 26;

const LETTER_UNIT: u32 = 1024;

const WORDS_IN_LINE: u32 = 10;

const LINES_FOR_ONE: u64 = 1000;

// Appends the word of a number.
fn put_word(out: &mut Vec<u8>, number: u32) -> Result<(), AllocError>
    ensures { OnOk result (out.new.items ≡ out.old.items ++ word_of number) }
{
    let length = 1 + number / LENGTH_UNIT % LONGEST_WORD;
    let letter = b'a' + (number / LETTER_UNIT % LETTERS) as u8;
    'letters: for _ in 0..length {
        out.push(letter)?;
    }
    Ok(())
}

// Appends a line of the next words.
fn put_line(out: &mut Vec<u8>, numbers: &mut Generator) -> Result<(), AllocError>
    ensures line { OnOk result (out.new.items ≡ out.old.items ++ ended (line_from numbers.old.number 1)) }
    ensures after { OnOk result (numbers.new.number ≡ number_at numbers.old.number words_in_line) }
{
    put_word(out, numbers.next())?;
    'words: for _ in 1..WORDS_IN_LINE {
        out.push(b' ')?;
        put_word(out, numbers.next())?;
    }
    out.push(b'\n')?;
    Ok(())
}

/// The input that is made from a number.
pub fn make_input(alloc: Global, number: u32) -> Result<Vec<u8>, AllocError>
    ensures { IfOk result (λ bytes. bytes.items ≡ text_of (input_lines number)) }
{
    let mut numbers = Generator { number };
    let mut out = Vec::new(alloc);
    'lines: for _ in 0..u64::from(number) * LINES_FOR_ONE {
        put_line(&mut out, &mut numbers)?;
    }
    Ok(out)
}
