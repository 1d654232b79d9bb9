//! What answers the requests of connections, as the threads of a server see it.
//!
//! The trait stands here, below the stations, since an `impl` of another crate's trait is for a type of its own. A trait over
//! single messages would stand under `for<'m>`, which the check does not take.
ghost use Rattle.std.specs.Prelude.{◌≡◌, false, Result as Either};
ghost use Rattle.st_connection.specs.Connection.{EndsOn};
ghost use Rattle.st_connection.specs.Streams.{Streams, streams};
ghost use Rattle.st_connection.specs.declared.connection.Ended.{Ended as End};
ghost use Rattle.st_connection.specs.declared.connection.IoFault.{IoFault as Broken};

use crate::connection::{Ended, IoFault, MAX_READS};
use crate::streams::{Sink, Source};

/// Serves connections, one after another.
pub trait Attend {
    // It served a connection: how it was before and after, what it did to the reader and the writer, and how the connection ended.
    ghost serves: { Self → Self → Streams → Either End Broken → Type 0 };

    // What is sure of it later.
    ghost grows: { Self → Self → Type 0 };

    /// Serves a connection. Once one ended as `Lost` it takes no more.
    fn serve<R: Source, S: Sink>(
        &mut self,
        reader: &mut R,
        writer: &mut S,
    ) -> Result<Ended, IoFault>
        requires reader_sound { R.has_failed reader.old ≡ false }
        requires writer_sound { S.has_failed writer.old ≡ false }
        ensures served { serves self.old self.new (streams R.Source S.Sink reader.old reader.new writer.old writer.new) result }
        ensures grows { grows self.old self.new }
        ensures ends { EndsOn MAX_READS (streams R.Source S.Sink reader.old reader.new writer.old writer.new) result };

    // One that served nothing is as it was.
    ghost stays: { (s : Self) → grows s s };
}
