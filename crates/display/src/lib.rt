// The display part: the 18 data bytes of a port in the outgoing area.
#![tactic(auto)]

ghost use Rattle.std.specs.Prelude.{◌≡◌, ◌&&◌, ◌+◌, ◌*◌, ◌==◌, nat_le, if◌then◌else◌, Some, None, length, take, drop};
ghost use Rattle.rules.specs.Areas.{outgoing_length};
ghost use Rattle.display.specs.Display.{display, display_start};

use layout::Router;

const LAST_PORT: u8 = Router::PORTS as u8 - 1;

// Identifier and time.
const HEADER: usize = Router::PACKET - Router::DATA;

// Where the data of a port start, if there is a part.
fn data_start(outgoing: &[u8], port: u8) -> Option<usize>
    ensures { result ≡ if (length outgoing.now == outgoing_length) && nat_le port 4 then Some (20 * port + 2) else None }
{
    if outgoing.len() == Router::OUTGOING && port <= LAST_PORT {
        Some(Router::PACKET * (port as usize) + HEADER)
    } else {
        None
    }
}

// Where the part starts in the area; the area's length where it is empty.
pub fn start(outgoing: &[u8], port: u8) -> usize
    ensures start { result ≡ display_start 1 outgoing.now port }
    ensures part { take 18 (drop result outgoing.now) ≡ display 1 outgoing.now port }
{
    data_start(outgoing, port).unwrap_or(outgoing.len())
}

// The part itself, of the area lent.
pub fn part(outgoing: &[u8], port: u8) -> &[u8]
    ensures { result.now ≡ display 1 outgoing.now port }
{
    let Some(from) = data_start(outgoing, port) else {
        return &outgoing[0..0];
    };
    let to = from + Router::DATA;
    &outgoing[from..to]
}
