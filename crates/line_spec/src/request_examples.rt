//! Examples of script lines that ask for a request. Each is stated in `specs/RequestExamples.antt` and computed
//! from the definitions by the prover; the functions do nothing.

ghost use Rattle.line_spec.specs.RequestExamples.{BlankLinesAreCommands, CommandsHaveNames};
ghost use Rattle.line_spec.specs.RequestExamples.{FirstFieldAtFaultIsNamed, LastOfAKeyCounts};
ghost use Rattle.line_spec.specs.RequestExamples.{UrlsAreRefusedByName, InitiatorsAreHosts};
ghost use Rattle.line_spec.specs.RequestExamples.{TabsHaveARange, FramesNameTheirUrl};
ghost use Rattle.line_spec.specs.RequestExamples.{FirstFrameAtFaultCounts, HeadersArePairs};

/// Spaces and tabs alone are no command; JSON that is cut off is no tree.
#[tactic(auto, using(crate::proofs::RequestsComputed::blank_lines_are_commands))]
pub fn blank_lines_are_commands()
    ensures { BlankLinesAreCommands }
{}

/// What is asked for is a request unless the line says otherwise, and a name that is not known is at fault.
#[tactic(auto, using(crate::proofs::RequestsComputed::commands_have_names))]
pub fn commands_have_names()
    ensures { CommandsHaveNames }
{}

/// Fields are tested in their order, and the first at fault is named.
#[tactic(auto, using(crate::proofs::RequestsComputed::first_field_at_fault_is_named))]
pub fn first_field_at_fault_is_named()
    ensures { FirstFieldAtFaultIsNamed }
{}

/// Of a key that is repeated the last value counts, and a key that is not known does not.
#[tactic(auto, using(crate::proofs::RequestsComputed::last_of_a_key_counts))]
pub fn last_of_a_key_counts()
    ensures { LastOfAKeyCounts }
{}

/// A text may be no URL, or one that is not decided for its scheme or its host.
#[tactic(auto, using(crate::proofs::RequestsComputed::urls_are_refused_by_name))]
pub fn urls_are_refused_by_name()
    ensures { UrlsAreRefusedByName }
{}

/// Who asks is named by a URL or an origin, of which the host is kept, or is nobody.
#[tactic(auto, using(crate::proofs::RequestsComputed::initiators_are_hosts))]
pub fn initiators_are_hosts()
    ensures { InitiatorsAreHosts }
{}

/// A tab is a whole number of the range of Chrome's tab ids, or -1.
#[tactic(auto, using(crate::proofs::RequestsComputed::tabs_have_a_range))]
pub fn tabs_have_a_range()
    ensures { TabsHaveARange }
{}

/// A frame says that it has no URL.
#[tactic(auto, using(crate::proofs::RequestsComputed::frames_name_their_url))]
pub fn frames_name_their_url()
    ensures { FramesNameTheirUrl }
{}

/// Frames are read one by one, and what is wrong with one of them is a fault of `frames`.
#[tactic(auto, using(crate::proofs::RequestsComputed::first_frame_at_fault_counts))]
pub fn first_frame_at_fault_counts()
    ensures { FirstFrameAtFaultCounts }
{}

/// A header's name is kept in lower case; a list may be there and empty.
#[tactic(auto, using(crate::proofs::RequestsComputed::headers_are_pairs))]
pub fn headers_are_pairs()
    ensures { HeadersArePairs }
{}
