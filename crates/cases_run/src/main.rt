// Runs document 01's cases through the router's entries, compares all outgoing and answer bytes, and prints of each case what is expected and what was found.
#![tactic(auto)]

use control::Register;
use layout::{Answers, Memory, Packets, Router, State};
use std::fmt::Display;
use std::{array, fmt, io};

// A packet's identifier, its time, and the first of its 18 bytes of data, all different. The first tells packets apart.
#[derive(Clone, Copy)]
struct Packet(u8, u8, u8);

// The packets of the ports that have one.
type Ports = [Option<Packet>; Router::PORTS];

// A packet on port 0, or none.
fn on_port_0(packet: Option<Packet>) -> Ports {
    [packet, None, None, None, None]
}

// Five packets of one time. The first byte of data goes up by one from port to port, and turns over at 256.
fn on_each_port(identifiers: [u8; Router::PORTS], time: u8, first: u8) -> Ports {
    array::from_fn(|port| { Some(Packet(identifiers[port], time, first.wrapping_add(port as u8))) })
}

// The area that holds them.
fn area(ports: Ports) -> Packets {
    let mut area = [0u8; Router::ARRIVALS];
    for (port, packet) in ports.iter().enumerate() {
        if let Some(Packet(identifier, time, first)) = *packet {
            let at = Router::PACKET * port;
            layout::copy_in(&[identifier, time, first], &mut area, at);
            layout::copy_in(b"bcdefghijklmnopqr", &mut area, at + 3);
        }
    }
    area
}

// What a tick gives.
#[derive(Drop, PartialEq, Eq)]
struct Reply {
    outgoing: Packets,
    answers: Answers,
}

// What it says of port 0: the arrival's answer and the port's, the identifier, the deadline and the first data byte that left, the packets withdrawn.
impl Display for Reply {
    fn fmt<W: fmt::Write>(&self, f: &mut fmt::Formatter<W>) -> fmt::Result {
        write!(f, "arrival {} port {}", self.answers[5], self.answers[0])?;
        write!(
            f,
            " identifier {} deadline {} data {}",
            self.outgoing[0], self.outgoing[1], self.outgoing[2]
        )?;
        write!(f, " withdrawn {}", self.answers[11])
    }
}

fn report<T: PartialEq + Display>(
    rt: &impl Print,
    name: &str,
    expected: &T,
    found: &T,
) -> io::Result<()> {
    let verdict = if expected == found { "ok" } else { "DIFFERS" };
    println!(rt; "{name}: expected {expected}, found {found}: {verdict}")
}

// What a router is lent. Whether a call is refused is not looked at: the ticks that are compared show it.
#[derive(Drop)]
struct Board {
    state: State,
    memory: Memory,
}

impl Board {
    // A fresh router.
    fn fresh(clock: u8) -> Board {
        let mut board = Board {
            state: [0u8; Router::STATE],
            memory: [0u8; Router::MEMORY],
        };
        let _ = router::router_fresh(&mut board.state, &mut board.memory, clock);
        board
    }

    // A fresh router with connection 5 to port 0, as 33.
    fn prepared(clock: u8, delay: u8, horizon: u8) -> Board {
        let mut board = Board::fresh(clock);
        board.connect(5, 33, delay, 1);
        board.write(Register::Ports, 1);
        board.write(Register::Horizon, horizon);
        board
    }

    fn write(&mut self, register: Register, value: u8) {
        let _ = router::router_control(&mut self.state, &self.memory, register.into(), value);
    }

    // Connection `incoming` gets an outgoing identifier, a delay and a mask.
    fn connect(&mut self, incoming: u8, outgoing: u8, delay: u8, mask: u8) {
        self.write(Register::Outgoing, outgoing);
        self.write(Register::Delay, delay);
        self.write(Register::Routes, mask);
        self.write(Register::Connection, incoming);
    }

    // A tick without best-effort. Outgoing and answers are lent full of nines.
    fn tick(&mut self, arriving: u8, arrivals: Ports) -> Reply {
        let mut outgoing = [9u8; Router::OUTGOING];
        let mut answers = [9u8; Router::ANSWERS];
        let _ = router::router_tick(
            &mut self.state,
            &mut self.memory,
            &area(arrivals),
            &mut outgoing,
            &mut answers,
            arriving,
            0,
        );
        Reply { outgoing, answers }
    }

    // A tick with a packet on port 0: its time and the first byte of its data; the arrival's answer; where port 0 sends packet 1, the port's answer and the deadline.
    fn report_one(
        &mut self,
        rt: &impl Print,
        name: &str,
        time: u8,
        first: u8,
        arrival: u8,
        sent: Option<(u8, u8)>,
    ) -> io::Result<()> {
        let mut answers = [0u8; Router::ANSWERS];
        answers[0] = sent.map_or(0, |(port, _)| port);
        answers[5] = arrival;
        let left = sent.map(|(_, deadline)| Packet(33, deadline, 1));
        let expected = Reply {
            outgoing: area(on_port_0(left)),
            answers,
        };
        let found = self.tick(1, on_port_0(Some(Packet(5, time, first))));
        report(rt, name, &expected, &found)
    }

    // How many addresses are idle.
    fn idle_count(&self) -> u16 {
        layout::free_count(&self.state)
    }
}

// One packet at t = 240: its delay, its port's horizon, its time; then as above.
fn one_packet(rt: &impl Print) -> io::Result<()> {
    for (name, delay, horizon, time, arrival, sent) in [
        ("time 80, horizon 96", 40, 96, 80, 1, Some((3, 120))),
        ("time 80, horizon 95", 40, 95, 80, 1, None),
        ("time 111, horizon 127", 40, 127, 111, 1, Some((3, 151))),
        ("time 111, horizon 126", 40, 126, 111, 1, None),
        ("time 210", 40, 0, 210, 1, Some((1, 250))),
        ("time 200", 40, 0, 200, 1, Some((1, 240))),
        ("time 199", 40, 0, 199, 7, None),
        ("time 112", 40, 127, 112, 7, None),
        ("time 112, d = 127", 127, 127, 112, 7, None),
        ("time 113, d = 127", 127, 0, 113, 1, Some((1, 240))),
        ("time 240, d = 0", 0, 0, 240, 1, Some((1, 240))),
    ] {
        let mut board = Board::prepared(240, delay, horizon);
        board.report_one(rt, name, time, 1, arrival, sent)?;
    }
    Ok(())
}

// Two packets of time 240 and d = 0, on ports 0 and 1: the second is stored too, and withdrawn.
fn two_packets(rt: &impl Print) -> io::Result<()> {
    let mut board = Board::prepared(240, 0, 0);
    let mut arrivals = on_port_0(Some(Packet(5, 240, 1)));
    arrivals[1] = Some(Packet(5, 240, 2));
    let expected = Reply {
        outgoing: area(on_port_0(Some(Packet(33, 240, 1)))),
        answers: [1, 0, 0, 0, 0, 1, 1, 0, 0, 0, 0, 1, 0, 0, 0, 0, 0, 0, 0, 0],
    };
    let found = board.tick(3, arrivals);
    report(rt, "time 240, d = 0, two of them", &expected, &found)
}

// Connections 1 and 2 have one delay and port 0, connection 3 has port 4. Slots 2 and 9 get packets of connections 1 and 2, the others get those of connection 3.
// Then two ticks without arrivals: the identifier of the packet that port 0 sends, its first byte of data, and that of the packet that port 4 sends.
fn equal_keys(rt: &impl Print) -> io::Result<()> {
    let mut board = Board::fresh(238);
    board.connect(1, 2, 40, 1);
    board.connect(2, 9, 40, 1);
    board.connect(3, 3, 40, 16);
    board.tick(31, on_each_port([3, 3, 1, 3, 3], 240, 1));
    board.tick(31, on_each_port([3, 3, 3, 3, 2], 240, 6));
    for (name, identifier, first, third) in [("first", 2, 3, 1), ("next", 9, 10, 2)] {
        let mut left = on_port_0(Some(Packet(identifier, 24, first)));
        left[4] = Some(Packet(3, 24, third));
        let expected = Reply {
            outgoing: area(left),
            answers: [1, 0, 0, 0, 1, 0, 0, 0, 0, 0, 0, 0, 0, 0, 0, 0, 0, 0, 0, 0],
        };
        let found = board.tick(0, on_port_0(None));
        print!(rt; "one time and one deadline in slots 9 and 2, ")?;
        report(rt, name, &expected, &found)?;
    }
    Ok(())
}

// Equal keys in slots 9 and 2, where slot 9's packet goes first: on time, the earlier time; early, the earlier deadline. At t = 240, and after the clock's turn at t = 0.
// The clock before that tick, and port 0's horizon; delay and time of slot 2's packet, of connection 7, then of slot 9's, of connection 5; the port's answer and the deadline.
// The other slots get packets of connection 6, for port 1, which are early in both ticks.
fn ties(rt: &impl Print) -> io::Result<()> {
    for (name, clock, horizon, (delay2, time2), (delay9, time9), (port, deadline)) in [
        ("times 210 and 240", 239, 0, (10, 240), (40, 210), (1, 250)),
        ("times 246 and 0", 255, 0, (10, 0), (20, 246), (1, 10)),
        ("deadlines 90 and 120", 239, 96, (40, 80), (10, 80), (3, 90)),
        (
            "deadlines 251 and 25",
            239,
            1,
            (40, 241),
            (10, 241),
            (3, 251),
        ),
        (
            "deadlines 128 and 223",
            255,
            96,
            (127, 96),
            (32, 96),
            (3, 128),
        ),
    ] {
        let mut board = Board::prepared(clock, delay9, horizon);
        board.connect(6, 34, 40, 2);
        board.connect(7, 35, delay2, 1);
        let early = clock.wrapping_add(11);
        let mut first = on_each_port([6; Router::PORTS], early, 1);
        first[2] = Some(Packet(7, time2, 3));
        board.tick(31, first);
        let mut second = on_each_port([6; Router::PORTS], early, 6);
        second[4] = Some(Packet(5, time9, 10));
        let expected = Reply {
            outgoing: area(on_port_0(Some(Packet(33, deadline, 10)))),
            answers: [
                port, 0, 0, 0, 0, 1, 1, 1, 1, 1, 0, 0, 0, 0, 0, 0, 0, 0, 0, 0,
            ],
        };
        let found = board.tick(31, second);
        print!(rt; "slots 9 and 2, ")?;
        report(rt, name, &expected, &found)?;
    }
    Ok(())
}

// A packet for all five ports.
fn five_ports(rt: &impl Print) -> io::Result<()> {
    let mut board = Board::fresh(240);
    board.connect(5, 33, 40, 31);
    let expected = Reply {
        outgoing: area([Some(Packet(33, 24, 1)); Router::PORTS]),
        answers: [1, 1, 1, 1, 1, 1, 0, 0, 0, 0, 0, 0, 0, 0, 0, 0, 0, 0, 0, 0],
    };
    let found = board.tick(1, on_port_0(Some(Packet(5, 240, 1))));
    let idle = board.idle_count();
    let next = board.state[267];
    report(rt, "mask 31, time 240, all five ports", &expected, &found)?;
    report(rt, "mask 31, time 240, idle addresses", &256, &idle)?;
    report(rt, "mask 31, time 240, next address", &0, &next)
}

// 255 packets for time 240, five a tick, then one more, and again one.
fn all_stored(rt: &impl Print) -> io::Result<()> {
    let mut board = Board::prepared(188, 40, 0);
    for i in 0..51 {
        board.tick(31, on_each_port([5; Router::PORTS], 240, 5 * i + 1));
    }
    board.report_one(rt, "the 256th packet", 240, 0, 1, None)?;
    let idle = board.idle_count();
    report(rt, "256 stored, idle addresses", &0, &idle)?;
    board.report_one(rt, "256 stored, the next arrival", 240, 0, 8, Some((1, 24)))?;
    let idle = board.idle_count();
    report(rt, "256 stored, idle addresses after that tick", &1, &idle)
}

fn main(rt: HostRuntime) -> io::Result<()> {
    one_packet(&rt)?;
    two_packets(&rt)?;
    equal_keys(&rt)?;
    ties(&rt)?;
    five_ports(&rt)?;
    all_stored(&rt)
}
