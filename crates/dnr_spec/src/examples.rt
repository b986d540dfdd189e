//! Examples of the definitions. Each is stated in `specs/Examples.antt` and computed from the definitions
//! by the prover; the functions do nothing.

ghost use Rattle.dnr_spec.specs.Examples.{HostStandsInTheAuthority, HostIsInAscii, PathIsNoHost};
ghost use Rattle.dnr_spec.specs.Examples.{EachRefusalOfAUrl, SeparatorFitsTheEnd};
ghost use Rattle.dnr_spec.specs.Examples.{DomainAnchorStaysInTheHost, AnchorsAlone};

/// The host has no user information and no port; the text has no fragment.
#[tactic(auto, using(crate::proofs::Computed::host_stands_in_the_authority))]
pub fn host_stands_in_the_authority()
    ensures { HostStandsInTheAuthority }
{}

/// The text is that of the serialization, in which a host is in punycode.
#[tactic(auto, using(crate::proofs::Computed::host_is_in_ascii))]
pub fn host_is_in_ascii()
    ensures { HostIsInAscii }
{}

/// `://` later than after the scheme begins no host.
#[tactic(auto, using(crate::proofs::Computed::path_is_no_host))]
pub fn path_is_no_host()
    ensures { PathIsNoHost }
{}

/// No URL, a scheme that is not decided, and a host with another character.
#[tactic(auto, using(crate::proofs::Computed::each_refusal_of_a_url))]
pub fn each_refusal_of_a_url()
    ensures { EachRefusalOfAUrl }
{}

/// `^` fits the end of the text, takes nothing there, and `^`, `*` or an end anchor may follow.
#[tactic(auto, using(crate::proofs::Computed::separator_fits_the_end))]
pub fn separator_fits_the_end()
    ensures { SeparatorFitsTheEnd }
{}

/// `||` fits at the host, even an empty one, and behind each of its dots, and nowhere else.
#[tactic(auto, using(crate::proofs::Computed::domain_anchor_stays_in_the_host))]
pub fn domain_anchor_stays_in_the_host()
    ensures { DomainAnchorStaysInTheHost }
{}

/// `|` and `||` alone fit; of `|||` the last is the end anchor, and no host ends a URL.
#[tactic(auto, using(crate::proofs::Computed::anchors_alone))]
pub fn anchors_alone()
    ensures { AnchorsAlone }
{}
