// The blocks of a file that is damaged: the number and the used count of each, as they stand.
use crate::text;
use intake::Failure;

// The block with the damage is marked.
pub fn list_blocks(rt: &impl Print, file: &[u8], damaged: usize) -> Result<(), Failure> {
    text::write_gap(rt)?;
    for (block, bytes) in file.chunks_exact(512).enumerate() {
        let mark = text::mark(block == damaged);
        let number = blocks::join(bytes[0], bytes[1]);
        let used = blocks::join(bytes[2], bytes[3]);
        text::write_line(
            rt,
            format_args!("{mark}block {block}: number {number}, used {used}"),
        )?;
    }
    Ok(())
}
