//! The front over a whole connection.

ghost use Rattle.std.specs.Prelude.{◌≡◌, ◌++◌, ℕ, List, OnOk};
ghost use Rattle.std.specs.Io.KnownBytes.{Appends, Consumes};
ghost use Rattle.http_server.specs.Connection.{config_of, history};
ghost use Rattle.http_server.specs.Exchange.{Calls};
ghost use Rattle.http_server.specs.History.{IsServed, Rests, IsQuiet, IsDone};
ghost use Rattle.wh_front.specs.FrontAnswers.{ServesPath};

use crate::front::Front;
use crate::resources::Resources;
use http_server::Connection;
use std::io;
use std::io::{Read, Write};

/// Answers what a connection has received, until that is used up, enough waits to be sent, or the connection ends. Whoever
/// moves the bytes calls it after each read and after each write.
pub fn answer_received<R: Resources>(connection: &mut Connection, front: &mut Front<R>)
    ensures calls { Calls (λ old request response new. (new.grants ≡ old.grants)
        × ServesPath R.answers old.grants.items old.resources request response new.resources)
        front.old front.new (history connection.old).calls (history connection.new).calls }
    ensures served { ∥ IsServed (config_of connection.new) (history connection.new) ∥₁ }
    ensures rests { Rests (config_of connection.new) (history connection.new) }
    ensures quiet { IsQuiet (history connection.old) (history connection.new) }
    ensures config { config_of connection.new ≡ config_of connection.old }
{
    connection.advance(front)
}

/// Serves a connection to its end.
///
/// # Errors
/// Those of reader and writer; that one of them takes nothing any more.
pub fn serve_front<R: Resources, I: Read, O: Write>(
    connection: &mut Connection,
    front: &mut Front<R>,
    reader: &mut I,
    writer: &mut O,
) -> io::Result<()>
    ensures calls { Calls (λ old request response new. (new.grants ≡ old.grants)
        × ServesPath R.answers old.grants.items old.resources request response new.resources)
        front.old front.new (history connection.old).calls (history connection.new).calls }
    ensures served { ∥ IsServed (config_of connection.new) (history connection.new) ∥₁ }
    ensures done { OnOk result (IsDone (history connection.new)) }
    ensures read { (more : List ℕ) × Consumes (I.remaining reader.old) (I.remaining reader.new) more
        × ((history connection.new).received ≡ (history connection.old).received ++ more) }
    ensures written { (more : List ℕ) × Appends (O.contents writer.old) (O.contents writer.new) more
        × ((history connection.new).sent ≡ (history connection.old).sent ++ more) }
    ensures config { config_of connection.new ≡ config_of connection.old }
{
    http_server::serve(connection, front, reader, writer)
}
