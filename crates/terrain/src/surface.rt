// The filled levels of a map, with its rows and columns.
ghost use Rattle.terrain.specs.InnerLevels.{Levels};

#[derive(Clone, Copy)]
pub(crate) struct Surface<'a> {
    pub(crate) rows: usize,
    pub(crate) columns: usize,
    pub(crate) level: &'a [u32],
    ghost levels: { Levels rows columns level.now },
}
