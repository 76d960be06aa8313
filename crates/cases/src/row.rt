// A case of the bench: its name, its rows one after another, and whose the drive is and where it stands behind them.
#[derive(Clone, Copy)]
pub(crate) struct Case {
    pub(crate) name: &'static str,
    pub(crate) rows: &'static [Row],
    pub(crate) owner: Option<u16>,
    // The cylinder, the head and the sector.
    pub(crate) place: [u16; 3],
}

// What is done, and what must come of it. An event has its port first and its answer last.
#[derive(Clone, Copy)]
pub(crate) enum Row {
    Select(u8, u8, Answer),
    Deselect(u8, Answer),
    DataControl(u8, u8, Answer),
    WordFromHost(u8, u16, Answer),
    Take(u8, Answer),
    End(u8, Answer),
    // The cylinder, the head and the sector.
    Position(u8, [u16; 3], Answer),
    Target(u8, u16, Answer),
    ReadStatus(u8, Answer),
    Reset(u8, Answer),
    // An event as it stands in a record of a capture: port, kind and four argument octets.
    Octets([u8; 6], Answer),
    // Four sector words from the index on are now these.
    Stored(usize, [u16; 4]),
    // At the end four sector words from the index on are these; those not named are zero.
    Expects(usize, [u16; 4]),
    // Four words of the state from the index on are now these.
    State(usize, [u16; 4]),
    // The state is that of the bench drive at rest.
    AtRest,
    // The selected port, the owner, the hold and the cylinder are these.
    Holds([u16; 4]),
    // The cylinder, the head, the sector and the target are these.
    Stands([u16; 4]),
    // The open control, its words moved and what is pending on port 0 and port 1 are these.
    Open([u16; 4]),
    // What is pending on port 1 and the three parameter words are these.
    Kept([u16; 4]),
    // The staging words are these.
    Staged([u16; 4]),
    // Power-up with the first seven words of the state as its numbers is refused with this number, or not.
    PowerUp(Option<u8>),
}

// An answer with document 01's numbers.
#[derive(Clone, Copy)]
pub(crate) enum Answer {
    Done,
    // Document 01's own number, and no name that the code under test turns into one.
    Refused(u16),
    // The drive status octet.
    Status(u16),
    // The words to come; and the cylinder, the head and the sector.
    Opened(u16, [u16; 3]),
    Word(u16),
    // With status 0.
    LastWord(u16),
    // Octets 0, 1 and 2, with status 0.
    Response([u8; 3]),
}

// An event as a record of a capture, and its answer.
#[derive(Clone, Copy)]
pub(crate) struct Sent {
    pub(crate) record: [u8; 8],
    pub(crate) answer: Answer,
}

impl Row {
    // The event, if the row is one.
    pub(crate) fn event(self) -> Option<Sent> {
        match self {
            Row::Select(port, octet, answer) => Some(event_of(port, 1, [octet, 0, 0, 0], answer)),
            Row::Deselect(port, answer) => Some(event_of(port, 2, [0; 4], answer)),
            Row::DataControl(port, octet, answer) => Some(event_of(
                port,
                3,
                [octet, 0, 0, 0],
                answer,
            )),
            Row::WordFromHost(port, word, answer) => Some(event_of(port, 4, pair(word), answer)),
            Row::Take(port, answer) => Some(event_of(port, 5, [0; 4], answer)),
            Row::End(port, answer) => Some(event_of(port, 6, [0; 4], answer)),
            Row::Position(port, place, answer) => Some(event_of(port, 7, octets(place), answer)),
            Row::Target(port, sector, answer) => Some(event_of(port, 8, pair(sector), answer)),
            Row::ReadStatus(port, answer) => Some(event_of(port, 9, [0; 4], answer)),
            Row::Reset(port, answer) => Some(event_of(port, 10, [0; 4], answer)),
            Row::Octets(octets, answer) => {
                let [port, kind, a0, a1, a2, a3] = octets;
                Some(event_of(port, kind, [a0, a1, a2, a3], answer))
            }
            _ => None,
        }
    }
}

fn event_of(port: u8, kind: u8, arguments: [u8; 4], answer: Answer) -> Sent {
    let [a0, a1, a2, a3] = arguments;
    Sent {
        record: [0, 0, port, kind, a0, a1, a2, a3],
        answer,
    }
}

// A word, high octet first.
fn pair(word: u16) -> [u8; 4] {
    let [high, low] = word.to_be_bytes();
    [high, low, 0, 0]
}

// A cylinder in two octets; a head and a sector, an octet each.
fn octets(place: [u16; 3]) -> [u8; 4] {
    let [cylinder, head, sector] = place;
    let [high, low] = cylinder.to_be_bytes();
    [high, low, (head & 0xFF) as u8, (sector & 0xFF) as u8]
}
