// The entries for programs in other languages: numbers and byte slices only. Each returns 0, 100 or document 01's number, and tells the
// rest in words of 32 bits, where the buffer for them is long enough.
#![tactic(auto)]

ghost use Rattle.std.specs.Prelude.{◌≡◌, min, length};
ghost use Rattle.rules.specs.Answers.{check_words, length_words, length_of, code_of, words_into};
ghost use Rattle.rules.specs.Check.{verdict_of};
ghost use Rattle.rules.specs.Container.{pack as pack_of, unpack as unpack_of};
ghost use Rattle.rules.specs.Memory.{pack_leaves, unpack_leaves};
ghost use Rattle.panel.specs.Survey.{ReadsLines};
ghost use Rattle.panel.specs.Tables.{panel_tables, RunsWithin};

use words::{check_words, length_words, run_words, tell};

// The verdict on a file.
#[unsafe(no_mangle)]
pub extern "C" fn bedrafoly_check(file: &[u8], answer: &mut [u8]) -> u32
    ensures { (result ≡ code_of (check_words (verdict_of file.now)))
        × (answer.new ≡ words_into (check_words (verdict_of file.now)) answer.old) }
{
    tell(check_words(verifier::check(file)), 4, answer)
}

// A run of function `entry` on argument bytes, in the first entries of tables of 4,096 cells, 2,048 stack places and 256 frames.
#[unsafe(no_mangle)]
pub extern "C" fn bedrafoly_run_within(
    file: &[u8],
    entry: u32,
    arguments: &[u8],
    budget: u32,
    cells: u32,
    stack: u32,
    frames: u32,
    out: &mut [u8],
    answer: &mut [u8],
) -> u32
    ensures { RunsWithin file.now entry arguments.now budget (panel_tables cells stack frames)
        out.old answer.old out.new answer.new result }
{
    let mut cell_table = [0u16; 20480];
    let mut stack_table = [0u16; 2048];
    let numbers = 5 * (cells as usize).min(4096);
    let places = (stack as usize).min(2048);
    let records = (frames as usize).min(256);
    let ran = lending::run_on::<256>(
        file,
        entry,
        arguments,
        budget,
        &mut cell_table[..numbers],
        &mut stack_table[..places],
        records,
        out,
    );
    tell(run_words(ran), 5, answer)
}

// The same in all of these tables.
#[unsafe(no_mangle)]
pub extern "C" fn bedrafoly_run(
    file: &[u8],
    entry: u32,
    arguments: &[u8],
    budget: u32,
    out: &mut [u8],
    answer: &mut [u8],
) -> u32
    ensures { RunsWithin file.now entry arguments.now budget (panel_tables 4096 2048 256)
        out.old answer.old out.new answer.new result }
{
    bedrafoly_run_within(file, entry, arguments, budget, 4096, 2048, 256, out, answer)
}

// A payload packed into blocks.
#[unsafe(no_mangle)]
pub extern "C" fn bedrafoly_pack(payload: &[u8], out: &mut [u8], answer: &mut [u8]) -> u32
    ensures { (result ≡ code_of (length_words (length_of (pack_of payload.now (length out.old)))))
        × (out.new ≡ pack_leaves payload.now out.old)
        × (answer.new ≡ words_into (length_words (length_of (pack_of payload.now (length out.old))))
        answer.old) }
{
    tell(length_words(packing::pack(payload, out)), 4, answer)
}

// The payload of a file's blocks.
#[unsafe(no_mangle)]
pub extern "C" fn bedrafoly_unpack(file: &[u8], out: &mut [u8], answer: &mut [u8]) -> u32
    ensures { (result ≡ code_of (length_words (length_of (unpack_of file.now (length out.old)))))
        × (out.new ≡ unpack_leaves file.now out.old)
        × (answer.new ≡ words_into (length_words (length_of (unpack_of file.now (length out.old))))
        answer.old) }
{
    tell(length_words(packing::unpack(file, out)), 4, answer)
}

// A survey's lines as a list argument, looked up in a table of entries of three letters and a constructor.
#[unsafe(no_mangle)]
pub extern "C" fn bedrafoly_lines(
    text: &[u8],
    table: &[u8],
    cons: u8,
    nil: u8,
    out: &mut [u8],
    answer: &mut [u8],
) -> u32
    ensures { ReadsLines text.now table.now cons nil out.old answer.old
        out.new answer.new result }
{
    tell(
        length_words(lines::lines(text, table, cons, nil, out)),
        4,
        answer,
    )
}
