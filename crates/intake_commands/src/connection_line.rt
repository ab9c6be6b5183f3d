//! The line of a connection in the log.

use crate::record::Record;
use gateway_server::Ended;
use std::fmt;
use std::fmt::Write;

/// The line of a connection in the log, a JSON object: its number, how it ended, the filers of the first requests that
/// were filed, how many requests and refusals there were, and the statuses of the first replies.
#[derive(Clone, Copy)]
pub(crate) struct ConnectionLine<'a> {
    pub(crate) number: u32,
    pub(crate) record: &'a Record,
    pub(crate) ended: Ended,
}

fn write_ended<W: fmt::Write>(ended: Ended, f: &mut fmt::Formatter<W>) -> fmt::Result {
    match ended {
        Ended::Closed => f.write_str("closed"),
        Ended::InputEnded => f.write_str("input ended"),
        Ended::Fault(fault) => write!(f, "{fault}"),
    }
}

fn write_filers<W: fmt::Write>(list: &[String], f: &mut fmt::Formatter<W>) -> fmt::Result {
    for (at, filer) in list.iter().enumerate() {
        let comma = if at == 0 { "" } else { "," };
        // A filer's code has letters, digits, '.', '_' and '-' alone, so nothing is escaped.
        write!(f, "{comma}\"{filer}\"")?;
    }
    Ok(())
}

fn write_statuses<W: fmt::Write>(list: &[u16], f: &mut fmt::Formatter<W>) -> fmt::Result {
    for (at, status) in list.iter().enumerate() {
        let comma = if at == 0 { "" } else { "," };
        write!(f, "{comma}{status}")?;
    }
    Ok(())
}

impl fmt::Display for ConnectionLine<'_> {
    fn fmt<W: fmt::Write>(&self, f: &mut fmt::Formatter<W>) -> fmt::Result {
        write!(f, "{{\"connection\":{},\"ended\":\"", self.number)?;
        write_ended(self.ended, f)?;
        f.write_str("\",\"filers\":[")?;
        write_filers(&self.record.filers, f)?;
        write!(f, "],\"places\":{},\"statuses\":[", self.record.places)?;
        write_statuses(&self.record.statuses, f)?;
        f.write_str("]}\n")
    }
}
