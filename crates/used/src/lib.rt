// The table of used bits, on bytes that the caller lends: a row for each frame, with a bit for each of its bits. Whether a run has a used one is one look.
#![tactic(auto)]

ghost use Rattle.std.specs.Prelude.{◌≡◌, ◌+◌, ◌<◌, ◌≤◌};
ghost use Rattle.used.specs.Used.{any_used, with_run};

use record::Run;

// A row of 32 bytes for each frame, and eight bytes behind the last.
pub type Table = [u8; 1032];

// Whether a bit of the run is used in frame f. The row is lent with the eight bytes behind it, so that eight can be read wherever the run lies.
pub fn is_used(table: &Table, f: usize, a: Run) -> bool
    requires { (f < 32) × (a.width ≤ 32) × (a.start + a.width ≤ 256) }
    ensures { result ≡ any_used table.now f a }
{
    packing::unpack_in(&table[f * 32..f * 32 + 40], 32, false, a.start, a.width) != 0
}

// The run's bits of frame f are used from now on.
pub fn add(table: &mut Table, f: usize, a: Run)
    requires { (f < 32) × (a.width ≤ 32) × (a.start + a.width ≤ 256) }
    ensures { table.new ≡ with_run table.old f a }
{
    packing::pack(
        &mut table[f * 32..f * 32 + 32],
        false,
        a.start,
        a.width,
        u32::MAX,
    );
}
