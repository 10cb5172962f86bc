//! What was answered to the inputs of a sweep.
use crate::sweeps::checksum::Checksum;
use rothelduf::{Fault, Reason, SectionId};
use std::alloc::{AllocError, Global};
use std::io;

/// Counts of answers.
#[derive(Drop)]
pub(crate) struct Tally {
    inputs: u64,
    sections: u64,
    broken: u64,
    checksum: Checksum,
    /// In the order in which each came first.
    faults: Vec<FaultCount>,
    /// The text of a fault.
    line: String,
}

/// How often a reason came in a section, whatever the offset.
#[derive(Clone, Copy)]
struct FaultCount {
    section: SectionId,
    reason: Reason,
    count: u64,
}

impl Tally {
    pub(crate) fn new(alloc: Global) -> Tally {
        Tally {
            inputs: 0,
            sections: 0,
            broken: 0,
            checksum: Checksum::new(),
            faults: Vec::new(alloc),
            line: String::new(alloc),
        }
    }

    /// An input was read.
    pub(crate) fn count_section(&mut self) {
        self.inputs = self.inputs.saturating_add(1);
        self.sections = self.sections.saturating_add(1);
    }

    /// An input had this fault.
    pub(crate) fn count_fault(&mut self, fault: Fault) -> Result<(), AllocError> {
        self.inputs = self.inputs.saturating_add(1);
        self.line.clear();
        write!(self.line, "{fault}\n")?;
        self.checksum.add(self.line.as_bytes());
        self.count_reason(fault.section, fault.reason)
    }

    fn count_reason(&mut self, section: SectionId, reason: Reason) -> Result<(), AllocError> {
        let known = self
            .faults
            .iter_mut()
            .find(|it| it.section == section && it.reason == reason);
        match known {
            Some(known) => {
                known.count = known.count.saturating_add(1);
                Ok(())
            }
            None => Ok(
                self.faults.push(FaultCount {
                    section,
                    reason,
                    count: 1,
                })?,
            ),
        }
    }

    /// Something that has to hold of an input is judged.
    pub(crate) fn expect(&mut self, holds: bool) {
        if !holds {
            self.broken = self.broken.saturating_add(1);
        }
    }

    /// How much was broken.
    pub(crate) fn broken(&self) -> u64 {
        self.broken
    }

    /// This was answered too.
    pub(crate) fn add(&mut self, text: &[u8]) {
        self.checksum.add(text);
    }

    pub(crate) fn print(&self, rt: &impl Print, vector: &str, section: &str) -> io::Result<()> {
        println!(rt;
            "{vector} {section}: {} inputs, {} read, {} broken, checksum {:08x}",
            self.inputs,
            self.sections,
            self.broken,
            self.checksum.value()
        )?;
        for known in self.faults.as_slice() {
            println!(rt;
                "  {} {}: {}",
                word(known.section),
                known.reason,
                known.count
            )?;
        }
        Ok(())
    }
}

fn word(section: SectionId) -> &'static str {
    match section {
        SectionId::Info => "info",
        SectionId::Abbrev => "abbrev",
    }
}
