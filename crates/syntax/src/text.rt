ghost use Rattle.std.specs.Prelude.{◌≤◌, length};

mod methods;
mod writing;

// Writes bytes one after the other into a lent text of a fixed length, from its start on.
#[derive(Drop)]
pub struct TextWriter<'o> {
    out: &'o mut [u8],
    end: usize,
    ghost within: { end ≤ length out.now },
}
