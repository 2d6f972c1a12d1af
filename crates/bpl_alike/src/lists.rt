//! Lists and options of what can be compared.
ghost use Rattle.std.specs.Prelude.{◌≡◌, ◌↔◌, map, true, option_map};

/// What is compared but for the offsets.
pub(crate) trait Compare {
    /// The value with all offsets 0.
    ghost bare: { Self → Self };

    /// Whether the two are equal but for the offsets.
    fn is_like(&self, other: &Self) -> bool
        ensures { result ≡ true ↔ bare self.now ≡ bare other.now };
}

/// Whether two lists have one length and agree item by item.
pub(crate) fn lists<T: Compare>(a: &[T], b: &[T]) -> bool
    ensures { result ≡ true ↔ map T.bare a.now ≡ map T.bare b.now }
{
    if a.len() != b.len() {
        return false;
    }
    for i in 0..a.len() {
        if !a[i].is_like(&b[i]) {
            return false;
        }
    }
    true
}

/// Whether both stand and agree, or none stands.
pub(crate) fn options<T: Compare>(a: &Option<T>, b: &Option<T>) -> bool
    ensures { result ≡ true ↔ option_map T.bare a.now ≡ option_map T.bare b.now }
{
    match a {
        None => b.is_none(),
        Some(one) => match b {
            None => false,
            Some(other) => one.is_like(other),
        },
    }
}
