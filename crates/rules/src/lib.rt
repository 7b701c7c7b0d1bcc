// The types that the code and the definitions of document 01 share. What each case means to the paper is in specs/Answers.antt.
#![tactic(auto)]

// What is set of a guest: its reservation, 0 for none, its limit, 0 for unlimited, its shares, and its credit, the spacings that its share tags may
// lie back.
#[derive(Clone, Copy)]
pub struct Settings {
    pub reservation: u64,
    pub limit: u64,
    pub shares: u64,
    pub credit: u64,
}

// One guest: its settings and its three next numbers. A host lends a slice of these.
#[derive(Clone, Copy)]
pub struct Guest {
    pub settings: Settings,
    pub rnext: u64,
    pub lnext: u64,
    pub snext: u64,
}

// A request in flight: whose, and its id. The same two numbers name any request.
#[derive(Clone, Copy)]
pub struct Flight {
    pub guest: u64,
    pub id: u32,
}

// What is set at opening for the whole array: its places, the places to wait in, and the rule for limits, 1 or 2.
#[derive(Clone, Copy)]
pub struct Setup {
    pub depth: u64,
    pub capacity: u64,
    pub rule: u64,
}

// An open table but for its rows: what was set, how many guests there are, the last accepted time, how many wait and how many are in flight.
#[derive(Clone, Copy)]
pub struct Gate {
    pub setup: Setup,
    pub guests: u64,
    pub time: u64,
    pub waiting: u64,
    pub flight: u64,
}

// The request that an arrival brings: whose, its id, its cost, and what its guest completed since the last one, all told (delta) and by reservation
// (rho); the last three of any size until they are judged.
#[derive(Clone, Copy)]
pub struct Arriving {
    pub guest: u64,
    pub id: u32,
    pub cost: u64,
    pub delta: u64,
    pub rho: u64,
}

// An event and its time: a request arrives, one completes, or only time passes.
#[derive(Clone, Copy)]
pub enum Event {
    Arrival(Arriving, u64),
    Completion(Flight, u64),
    Tick(u64),
}

// The phase of the choice that sent a request, in the order of the numbers that a host sees.
#[derive(Clone, Copy)]
pub enum Phase {
    Reservation = 1,
    Weight = 2,
}

// Why a call or a trace is refused, by the papers' number: 1 to 15 are document 01's, those behind them document 02's.
#[derive(Clone, Copy)]
pub enum Refusal {
    BadSetting = 1,
    ShortTable = 2,
    Unsound = 3,
    UnknownGuest = 4,
    TimeAboveCeiling = 5,
    TimeBeforeLast = 6,
    IdInUse = 7,
    NoRoom = 8,
    TagAboveCeiling = 9,
    NotInFlight = 10,
    BadMark = 11,
    BadVersion = 12,
    HeaderCut = 13,
    BadEvent = 14,
    EventCut = 15,
    AnswersShort = 16,
    TooManyEvents = 17,
    BadCost = 18,
    NoWayBack = 19,
    BadDelta = 20,
    RoomShort = 21,
    NoArray = 22,
}

// The papers' number of a refusal.
impl From<Refusal> for u64 {
    ghost use Rattle.std.specs.Prelude.{◌≡◌};
    ghost use Rattle.rules.specs.Answers.{number_of};

    ghost from_gives = { λ refusal number. number ≡ number_of refusal };

    fn from(refusal: Refusal) -> u64 {
        refusal as u64
    }
}

// What a call answers: nothing is sent, a request is sent, or the call is refused.
#[derive(Clone, Copy)]
pub enum Answer {
    Nothing,
    Sent { phase: Phase, guest: u64, id: u32 },
    Refused(Refusal),
}

// The gate after a call, the call's answer, and when to wake the gate by a tick.
#[derive(Clone, Copy)]
pub struct Outcome {
    pub gate: Gate,
    pub answer: Answer,
    pub wake: Option<u64>,
}
