// Where each number stands in its row, how many numbers a row has, and how large a table may be. Columns.antt in specs/ has these names for the
// contracts.

// A guest's reservation.
pub const RESERVATION: usize = 0;

// A guest's limit.
pub const LIMIT: usize = 1;

// A guest's shares.
pub const SHARES: usize = 2;

// A guest's next reservation number.
pub const RNEXT: usize = 3;

// A guest's next limit number.
pub const LNEXT: usize = 4;

// A guest's next share number.
pub const SNEXT: usize = 5;

// A guest's credit: the last number of its row, behind the next numbers.
pub const CREDIT: usize = 6;

// The numbers of a guest.
pub const GUEST_WIDE: usize = 7;

// A guest's credit in a list of settings, behind its shares: there are no next numbers there.
pub const LISTCREDIT: usize = 3;

// The numbers of a guest's settings in a list of settings.
pub const SETTINGS_WIDE: usize = 4;

// Whose a request is, waiting or in flight.
pub const GUEST: usize = 0;

// A request's id, waiting or in flight.
pub const ID: usize = 1;

// The numbers of a request in flight.
pub const FLIGHT_WIDE: usize = 2;

// A waiting request's reservation tag.
pub const RTAG: usize = 2;

// A waiting request's limit tag.
pub const LTAG: usize = 3;

// A waiting request's share tag.
pub const STAG: usize = 4;

// A waiting request's cost: the last number of its row.
pub const COST: usize = 5;

// The numbers of a waiting request.
pub const WAITING_WIDE: usize = 6;

// The most guests.
pub const MOST_GUESTS: usize = 64;

// The most places at the array.
pub const MOST_DEPTH: usize = 64;

// The most waiting places.
pub const MOST_CAPACITY: usize = 1024;

// The numbers of the largest guest table.
pub const GUESTS_LONG: usize = MOST_GUESTS * GUEST_WIDE;

// The numbers of the largest list of settings.
pub const SETTINGS_LONG: usize = MOST_GUESTS * SETTINGS_WIDE;

// The numbers of the largest waiting table.
pub const WAITING_LONG: usize = MOST_CAPACITY * WAITING_WIDE;

// The numbers of the largest flight table.
pub const FLIGHT_LONG: usize = MOST_DEPTH * FLIGHT_WIDE;
