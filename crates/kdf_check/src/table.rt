//! The transfers that are pending.
ghost use Rattle.std.specs.Prelude.{◌≡◌, is_some, true};
ghost use Rattle.std.specs.List.{list_any};
ghost use Rattle.kdf_check.specs.Around.{covers, is_among};

/// A transfer that is pending.
#[derive(Clone, Copy, PartialEq, Eq)]
pub struct Pending {
    /// The program that began it.
    pub p: u8,
    /// The first and the last group of its area, where it has one.
    pub groups: Option<(u16, u16)>,
}

/// The transfers that are pending, of whichever program, by device.
#[derive(Drop)]
pub struct Table {
    places: [Option<Pending>; 16],
    /// One is pending. Most words are read while none is, and then no place is looked at.
    busy: bool,
    ghost all: { list_any is_some places ≡ true → busy ≡ true },
}

impl Table {
    ghost use Rattle.std.specs.Prelude.{◌<◌, find, replicate, slice_index_or, slice_set, IfSome, None, Some};
    ghost use Rattle.kdf_processor.specs.View.{groups_of, head};
    ghost use Rattle.kdf_check.specs.Around.{is_busy_in, is_of, is_out_in, mine_in};

    /// The table in which nothing is pending.
    pub fn new() -> Table
        ensures { result.places ≡ replicate 16 None }
    {
        Table {
            places: [None; 16],
            busy: false,
        }
    }

    /// Has a transfer pending on a device.
    pub fn begin(&mut self, d: u8, transfer: Pending)
        requires { d < 16 }
        ensures { self.new.places ≡ slice_set self.old.places d (Some transfer) }
    {
        self.busy = true;
        self.places[usize::from(d)] = Some(transfer);
    }

    /// Has none pending on a device.
    pub fn end(&mut self, d: u8)
        requires { d < 16 }
        ensures { self.new.places ≡ slice_set self.old.places d None }
    {
        self.places[usize::from(d)] = None;
        self.busy = is_any(&self.places);
    }

    /// Whether a group of program `p` is one of a transfer that is pending. Each word that is read or written asks.
    #[inline(always)]
    pub fn is_out(&self, p: u8, group: u16) -> bool
        ensures { result ≡ is_out_in p self.now.places group }
    {
        self.busy && self.is_covered(p, group)
    }

    /// Whether a place has such a transfer. A group is looked at for each word, and almost always nothing is pending: this stays out of the way
    /// of that.
    #[inline(never)]
    fn is_covered(&self, p: u8, group: u16) -> bool
        ensures { result ≡ is_out_in p self.now.places group }
    {
        self.places.iter().any(|place| covers(place, p, group))
    }

    /// The least group of an area of program `p` that is out.
    pub fn first_out(&self, p: u8, first: u16, last: u16) -> Option<u16>
        ensures { result ≡ find (is_out_in p self.now.places) (groups_of first last) }
    {
        for group in first / 32..last / 32 + 1 {
            if self.is_out(p, group) {
                return Some(group);
            }
        }
        None
    }

    /// Whether a group of an area of program `p` is out.
    pub fn is_any_out(&self, p: u8, first: u16, last: u16) -> bool
        ensures { result ≡ list_any (is_out_in p self.now.places) (groups_of first last) }
    {
        self.first_out(p, first, last).is_some()
    }

    /// Whether a device has a transfer.
    pub fn is_busy(&self, d: u8) -> bool
        ensures { result ≡ is_busy_in self.now.places d }
    {
        matches!(self.places.get(usize::from(d)), Some(Some(_)))
    }

    /// The least device on which program `p` has a transfer.
    pub fn first_own(&self, p: u8) -> Option<u8>
        ensures least { result ≡ head (mine_in p self.now.places) }
        ensures busy { IfSome result (λ d. is_busy_in self.now.places d ≡ true) }
    {
        for d in 0..16u8 {
            if self.is_own(p, d) {
                return Some(d);
            }
        }
        None
    }

    /// Whether program `p` has a transfer on this device.
    fn is_own(&self, p: u8, d: u8) -> bool
        requires { d < 16 }
        ensures own { result ≡ is_of p (slice_index_or self.now.places d None) }
        ensures busy { result ≡ true → is_busy_in self.now.places d ≡ true }
    {
        match self.places[usize::from(d)] {
            Some(transfer) => transfer.p == p,
            None => false,
        }
    }
}

/// Whether a place has a transfer.
fn is_any(places: &[Option<Pending>; 16]) -> bool
    ensures { result ≡ list_any is_some places.now }
{
    places.iter().any(|place| place.is_some())
}

/// Whether a place has a transfer of the program, whose area touches the group.
fn covers(place: &Option<Pending>, p: u8, group: u16) -> bool
    ensures { result ≡ covers p group place.now }
{
    match place {
        Some(transfer) => transfer.p == p && is_among(transfer.groups, group),
        None => false,
    }
}

/// Whether a group is one of these.
fn is_among(groups: Option<(u16, u16)>, group: u16) -> bool
    ensures { result ≡ is_among groups group }
{
    match groups {
        Some((first, last)) => first <= group && group <= last,
        None => false,
    }
}
