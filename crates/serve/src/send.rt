// Step 3 of a tick, once it is known who has each port: the packets sent, and by which ports.
ghost use Rattle.std.specs.Prelude.{◌≡◌, [], ◌∷◌, ℕ, ◌+◌, ◌*◌, ◌^◌, ◌<◌, length, get_or, set, replicate};
ghost use Rattle.std.proofs.lemmas.List.Edits.{sets};
ghost use Rattle.rules.specs.Areas as Areas;
ghost use Rattle.rules.specs.Tick.{grant_bytes};
ghost use Rattle.passes.specs.Sends.{joined, sends};
ghost use Rattle.choose.specs.Grants.{grant_of, grant_at};

use choose::Grant;
use layout::{Memory, Packet, Packets, Port, Router, SlotAddress};

// A slot's packet.
fn packet(memory: &Memory, s: SlotAddress) -> &Packet
    ensures { result.now ≡ Areas.packet memory.now s.0 }
{
    let a = Router::PACKET * (s.0 as usize);
    memory[a..a + Router::PACKET].as_array().unwrap()
}

// The port joins the ports that send the slot.
fn join(sent: &mut [u8; Router::SLOTS], port: Port, s: SlotAddress)
    requires { get_or sent.old s.0 0 < 2 ^ port.index }
    ensures { sent.new ≡ set sent.old s.0 (get_or sent.old s.0 0 + 2 ^ port.index) }
{
    sent[s.0 as usize] += 1 << port.index;
}

// Step 3 for one port that has this grant: it sends its slot's packet, or 20 bytes of zero.
fn serve_port(
    memory: &Memory,
    outgoing: &mut Packets,
    sent: &mut [u8; Router::SLOTS],
    port: Port,
    g: Grant,
)
    requires { (i : ℕ) → get_or sent.old i 0 < 2 ^ port.index }
    ensures packet { outgoing.new ≡ sets outgoing.old (Areas.packet_length * port.index) (grant_bytes memory.now (grant_of g)) }
    ensures after { sent.new ≡ joined port.index (grant_of g) sent.old }
{
    let at = Router::PACKET * (port.index as usize);
    match g {
        Grant::Nobody | Grant::BestEffort => {
            let none = [0u8; Router::PACKET];
            layout::copy_in(&none, outgoing, at);
        }
        Grant::OnTime(s) | Grant::Early(s) => {
            layout::copy_in(packet(memory, s), outgoing, at);
            join(sent, port, s);
        }
    }
}

// Step 3 for the five ports; the masks stay, and `sent` tells which ports leave them.
pub fn serve(
    memory: &Memory,
    outgoing: &mut Packets,
    sent: &mut [u8; Router::SLOTS],
    grants: [Grant; Router::PORTS],
) -> [u8; Router::PORTS]
    requires unsent { sent.old ≡ replicate 256 0 }
    requires packets { (p : ℕ) → p < 5 → length (grant_bytes memory.now (grant_at grants p)) ≡ Areas.packet_length }
    ensures codes { result ≡ Areas.per_port (λ p. Areas.grant_code (grant_at grants p) ∷ []) }
    ensures packets { outgoing.new ≡ Areas.per_port (λ p. grant_bytes memory.now (grant_at grants p)) }
    ensures masks { sent.new ≡ sends (grant_at grants) 5 }
{
    for p in 0..Router::PORTS {
        let port = Port { index: p as u8 };
        serve_port(memory, outgoing, sent, port, grants[p]);
    }
    grants.map(u8::from)
}
