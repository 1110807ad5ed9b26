// The memory's size: 16 pending records, then frames.
ghost use Rattle.std.specs.Prelude.{◌≡◌};
ghost use Rattle.model.specs.State.{frame_count, valid_memory, pending_at, frame_at};

// The number of frames that a memory of this size has.
pub fn frames(size: usize) -> usize
    ensures { result ≡ frame_count size }
{
    if size <= 1024 { 0 } else { (size - 1024) / 256 }
}

// A memory may have this size.
pub fn memory(size: usize) -> bool
    ensures { result ≡ valid_memory size }
{
    let count = frames(size);
    ((1 <= count) & (count <= 16)) & (size == 1024 + 256 * count)
}

// Where pending record n lies; 0 has the place of 1.
pub fn pending_at(n: u32) -> usize
    ensures { result ≡ pending_at n }
{
    if n == 0 {
        return 0;
    }
    64 * ((n as usize - 1) % 16)
}

// Where frame f starts; 0 has the place of 1.
pub fn frame_at(f: u32) -> usize
    ensures { result ≡ frame_at f }
{
    if f == 0 {
        return 1024;
    }
    1024 + 256 * (f as usize - 1)
}
