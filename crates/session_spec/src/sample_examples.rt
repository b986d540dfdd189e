//! Examples of samples. Each is stated in `specs/SampleExamples.antt` and computed from the definitions by the prover;
//! the functions do nothing.

ghost use Rattle.session_spec.specs.SampleExamples.{WordsAreThoseOfPcg, RequestsAreDealtOut};
ghost use Rattle.session_spec.specs.SampleExamples.{SampleTakesFourNumbers, SamplesAreSummedUp};

/// The first words of PCG's reference program `pcg32-demo`, which begins with 42 on the stream 54.
#[tactic(auto, using(crate::proofs::SamplesComputed::words_are_those_of_pcg))]
pub fn words_are_those_of_pcg()
    ensures { WordsAreThoseOfPcg }
{}

/// Five requests in rounds that three updates part: two in the first, and one in each other.
#[tactic(auto, using(crate::proofs::SamplesComputed::requests_are_dealt_out))]
pub fn requests_are_dealt_out()
    ensures { RequestsAreDealtOut }
{}

/// `sample` takes its four numbers.
#[tactic(auto, using(crate::proofs::SamplesComputed::sample_takes_four_numbers))]
pub fn sample_takes_four_numbers()
    ensures { SampleTakesFourNumbers }
{}

/// Without rules no request is decided, and updates alone leave their count.
#[tactic(auto, using(crate::proofs::SamplesComputed::samples_are_summed_up))]
pub fn samples_are_summed_up()
    ensures { SamplesAreSummedUp }
{}
