// Clients that wait, by their connections.
ghost use Rattle.std.specs.Prelude.{◌≡◌, ◌+◌, ◌∷◌, ℕ, List, [], MatchResult};
ghost use Rattle.swf_desk.specs.Clients.{Event, asks, says, count, who};
ghost use Rattle.swf_desk.specs.Desks.{Keeps};

use std::alloc::Global;
use std::collections::BTreeMap;

/// Clients that asked and were not told anything yet, each by the number of its connection. Connections are numbered from 1 in the order
/// in which clients are admitted, and no number is given twice.
#[derive(Drop)]
pub struct Desk<L> {
    clients: BTreeMap<u64, L>,
    /// How many clients were admitted, and so the number of the last connection.
    admitted: u64,
}

impl<L: Drop> Desk<L> {
    /// Where nobody asked yet. It takes no memory.
    pub fn new(alloc: Global) -> Desk<L>
        ensures nobody { Keeps result [] }
    {
        Desk {
            clients: BTreeMap::new(alloc),
            admitted: 0,
        }
    }

    /// Takes in a client that asks something, and gives it the next connection, by which the input goes that it is. The client is handed
    /// back where memory is missing, or no number is left.
    pub fn admit(&mut self, client: L) -> Result<u64, L>
        ensures next { (es : List (Event L)) (bytes : List ℕ) → Keeps self.old es → MatchResult result
            (λ conn. (conn ≡ count es + 1) × Keeps self.new (asks client bytes ∷ es))
            (λ back. (back ≡ client) × Keeps self.new es) }
    {
        if self.admitted == u64::MAX {
            return Err(client);
        }
        let conn = self.admitted + 1;
        match self.clients.insert(conn, client) {
            Ok(_) => {
                self.admitted = conn;
                Ok(conn)
            }
            Err(failed) => Err(failed.value.1),
        }
    }

    /// Hands out the client of a connection, to which some bytes are to be said. It is known no more. None where no client waits on that
    /// connection. It takes no memory.
    pub fn release(&mut self, conn: u64) -> Option<L>
        ensures client { (es : List (Event L)) → Keeps self.old es → result ≡ who es conn }
        ensures gone { (es : List (Event L)) (bytes : List ℕ) → Keeps self.old es → Keeps self.new (says conn bytes ∷ es) }
    {
        self.clients.remove(&conn)
    }
}
