// Laws of encoding and decoding.
ghost use Rattle.isa_laws.specs.EncodingLaws.{DecodeInvertsEncode, EncodeInvertsDecode, OperandsFit, FencesIgnoreFields};

// An instruction whose operands fit is encoded as a word that decodes to it.
#[tactic(auto, using(crate::proofs::Decodes::decodes))]
pub fn decoding_inverts_encoding()
    ensures { DecodeInvertsEncode }
{}

// A known word is the encoding of what it decodes to, but for the fields that a fence ignores.
#[tactic(auto, using(crate::proofs::Encodes::encodes))]
pub fn encoding_inverts_decoding()
    ensures { EncodeInvertsDecode }
{}

// The operands of a known word fit.
#[tactic(auto, using(crate::proofs::Encodes::operands_fit))]
pub fn decoded_operands_fit()
    ensures { OperandsFit }
{}

// A fence is told by opcode and f3 alone.
#[tactic(auto, using(crate::proofs::Decodes::fences_ignore_fields))]
pub fn fences_ignore_fields()
    ensures { FencesIgnoreFields }
{}
