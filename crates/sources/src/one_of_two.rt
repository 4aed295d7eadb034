// A source that is one of two, so that sources of two kinds can stand in one list.
ghost use Rattle.sources.specs.Layers.{either_meaning};
ghost use Rattle.sources.specs.Within.{either-within};

use crate::reading::Reading;
use crate::source::Source;
use either::Either;
use faults::Fault;

impl<A: Source, B: Source> Source for Either<A, B> {
    // It finds no fault by itself.
    const NUMBER: u32 = 0;

    ghost meaning = { either_meaning A.meaning B.meaning };

    ghost within = { either-within A.meaning B.meaning A.within B.within };

    fn read(&self) -> Result<Reading, Fault> {
        match self {
            Either::Left(source) => source.read(),
            Either::Right(source) => source.read(),
        }
    }
}
