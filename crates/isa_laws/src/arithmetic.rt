// Laws of the operations and of the branch conditions.
ghost use Rattle.isa_laws.specs.ArithmeticLaws.{SignedReading, ResultsAreWords, Addition, Logic, Shifting, Comparison, Branching, Multiplication, Division, DivisionSpecial};

// A signed word is the word itself, less 2^32 from 2^31 on.
#[tactic(auto, using(crate::proofs::Readings::reading))]
pub fn words_read_in_twos_complement()
    ensures { SignedReading }
{}

// Every operation takes words to a word.
#[tactic(auto, using(crate::proofs::Results::results_are_words))]
pub fn results_are_words()
    ensures { ResultsAreWords }
{}

// ADD is the sum modulo 2^32, and ADD and SUB undo one another.
pub fn sums_invert()
    ensures { Addition }
{}

// AND, OR and XOR go bit by bit.
pub fn logic_is_bitwise()
    ensures { Logic }
{}

// SLL multiplies modulo 2^32, SRL and SRA divide and round down.
pub fn shifts_scale()
    ensures { Shifting }
{}

// SLT and SLTU tell whether the first word is less.
#[tactic(auto, using(crate::proofs::Orders::comparison))]
pub fn comparisons_tell()
    ensures { Comparison }
{}

// Each branch condition is the relation that it is named for.
#[tactic(auto, using(crate::proofs::Orders::branching))]
pub fn conditions_tell()
    ensures { Branching }
{}

// The upper and the lower word of a product make up the product.
#[tactic(auto, using(crate::proofs::Products::multiplication))]
pub fn products_are_whole()
    ensures { Multiplication }
{}

// Quotient times divisor plus remainder is the dividend.
#[tactic(auto, using(crate::proofs::Quotients::division))]
pub fn quotients_divide()
    ensures { Division }
{}

// What division answers for a divisor of zero, and where the quotient does not fit.
#[tactic(auto, using(crate::proofs::Quotients::division_special))]
pub fn division_special_cases()
    ensures { DivisionSpecial }
{}
