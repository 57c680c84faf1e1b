// Waiting frames stored, read and cleared.
ghost use Rattle.std.specs.Prelude.{◌≡◌, true, ◌≤◌, ◌<◌, length};
ghost use Rattle.rules.specs.Memory.{table_after};
ghost use Rattle.store.specs.Frames.{no_frame, frame_in, FramePut};

// A frame that waits for the one above it: its function, the call that it stands at, and how many stack places are its own.
#[derive(Clone, Copy, Debug, Default, PartialEq, Eq)]
pub struct Frame {
    pub function: u16,
    pub instruction: u16,
    pub height: u16,
}

// For the crates above: the frame at place k of the table.
pub fn frame_at(frames: &[Frame], k: usize) -> Frame
    requires { k < length frames.now }
    ensures { result ≡ frame_in frames.now k }
{
    frames[k]
}

// For the crates above: stores a frame at place k of the table.
pub fn put_frame(frames: &mut [Frame], k: usize, w: Frame)
    requires { k < length frames.old }
    ensures { FramePut k w frames.old frames.new }
{
    frames[k] = w;
}

// For the crates above: after the run, the usable frames zeros, any beyond kept.
pub fn clear_frames(frames: &mut [Frame], n: usize)
    requires { n ≤ length frames.old }
    ensures { frames.new ≡ table_after true no_frame n frames.old }
{
    frames[..n].fill(Frame::default());
}
