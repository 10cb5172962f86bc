//! The numbers of faults and refusals, as the documentation of each counts them.
use dw_ctype::TypeError;
use dw_section::{RefFault, SectionRefusal, SetRefusal};
use dw_strings::StrFault;

const NUMBERS: [(u8, u8); 27] = [
    (RefFault::NotReference as u8, 1),
    (RefFault::OutsideUnit as u8, 2),
    (RefFault::OutsideSection as u8, 3),
    (RefFault::NotAnEntry as u8, 4),
    (RefFault::InOther as u8, 5),
    (RefFault::NoSignature as u8, 6),
    (RefFault::BadTypeOffset as u8, 7),
    (RefFault::Supplementary as u8, 8),
    (StrFault::NotText as u8, 1),
    (StrFault::PastSection as u8, 2),
    (StrFault::NoZero as u8, 3),
    (StrFault::NoBase as u8, 4),
    (StrFault::PastOffsets as u8, 5),
    (StrFault::Supplementary as u8, 6),
    (SetRefusal::NoEntry as u8, 1),
    (SetRefusal::NoAttribute as u8, 2),
    (SetRefusal::NotANumber as u8, 3),
    (SetRefusal::InTable as u8, 4),
    (SetRefusal::DoesNotFit as u8, 5),
    (SetRefusal::BadTarget as u8, 6),
    (SectionRefusal::WrongOrder as u8, 1),
    (SectionRefusal::WrongVersion as u8, 2),
    (SectionRefusal::TooLong as u8, 3),
    (SectionRefusal::NoMemory as u8, 4),
    (TypeError::NoEntry as u8, 1),
    (TypeError::TypeTooBig as u8, 2),
    (TypeError::NoMemory as u8, 3),
];

#[test]
fn faults_have_their_numbers(rt: HostRuntime) {
    for (number, wanted) in NUMBERS {
        assert!(rt; number == wanted);
    }
}
