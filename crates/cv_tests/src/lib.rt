// Tests of what no contract says and no file under tests/cases shows: reports that are written into sinks which take little or fail,
// and the line of a query that was asked alone.
#![tactic(auto)]

#[cfg(test)]
mod lines;
