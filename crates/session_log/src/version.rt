//! The versions of the log's text.

ghost use Rattle.std.specs.Prelude.{◌≡◌};
ghost use Rattle.session_log.specs.Version.{header_text, first_line, has_unknown_line, has_moments};
ghost use Rattle.session_log.specs.Version.{version_of};

/// A version of the log's text, which a log tells by its header: the line that it begins with.
#[derive(Clone, Copy, Debug, PartialEq, Eq)]
pub enum Version {
    /// No header.
    One,
    /// The header `log 2`. A transaction may end in `unknown`, where it is its session's last.
    Two,
    /// The header `log 3`. Besides, `begin` and `commit` may state a moment.
    Three,
}

impl Version {
    /// The version of a log. No header that is not whole, with its LF, is one.
    #[tactic(auto, unfolding(crate::specs::Version::version_of))]
    pub fn of(log: &[u8]) -> Version
        ensures { result ≡ version_of log.now }
    {
        if log.starts_with(Version::Three.header()) {
            Version::Three
        } else if log.starts_with(Version::Two.header()) {
            Version::Two
        } else {
            Version::One
        }
    }

    /// The bytes of the header, with its LF: none of version 1.
    pub fn header(self) -> &'static [u8]
        ensures { result.now ≡ header_text self }
    {
        match self {
            Version::One => b"",
            Version::Two => b"log 2\n",
            Version::Three => b"log 3\n",
        }
    }

    /// The line behind the header, from 1.
    pub fn first_line(self) -> usize
        ensures { result ≡ first_line self }
    {
        match self {
            Version::One => 1,
            Version::Two | Version::Three => 2,
        }
    }

    /// Whether it has the line `unknown`.
    pub fn has_unknown_line(self) -> bool
        ensures { result ≡ has_unknown_line self }
    {
        match self {
            Version::One => false,
            Version::Two | Version::Three => true,
        }
    }

    /// Whether its lines `begin` and `commit` may state a moment.
    pub fn has_moments(self) -> bool
        ensures { result ≡ has_moments self }
    {
        match self {
            Version::One | Version::Two => false,
            Version::Three => true,
        }
    }
}
