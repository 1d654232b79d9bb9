//! Tests of what no clause of lanes, labels, plans, indexes, the UB-tree, walks over it and tables says: where a tree is cut, how much
//! memory each call takes, and that each growth can be refused.
#![tactic(auto)]

#[cfg(test)]
mod labels;
#[cfg(test)]
mod lanes;
#[cfg(test)]
mod on_line;
#[cfg(test)]
mod plans;
#[cfg(test)]
mod putting;
#[cfg(test)]
mod refusals;
#[cfg(test)]
mod table_growths;
#[cfg(test)]
mod tabling;
#[cfg(test)]
mod thousands;
#[cfg(test)]
mod trees;
#[cfg(test)]
mod verdicts;
#[cfg(test)]
mod walks;
#[cfg(test)]
mod worked;
