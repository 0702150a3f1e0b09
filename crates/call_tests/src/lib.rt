//! Each library's calls once, where all goes well, and the standards' own vectors.
#![tactic(auto)]

#[cfg(test)]
mod bounds;
#[cfg(test)]
mod containers;
#[cfg(test)]
mod datums;
#[cfg(test)]
mod definitions;
#[cfg(test)]
mod drawn_names;
#[cfg(test)]
mod folders;
#[cfg(test)]
mod lines;
#[cfg(test)]
mod lists_and_texts;
#[cfg(test)]
mod manifests;
#[cfg(test)]
mod metadata;
#[cfg(test)]
mod numbers;
#[cfg(test)]
mod predicates;
#[cfg(test)]
mod records;
#[cfg(test)]
mod runs;
#[cfg(test)]
mod scripts;
#[cfg(test)]
mod statements;
#[cfg(test)]
mod values;
#[cfg(test)]
mod versions;
#[cfg(test)]
mod words;
#[cfg(test)]
mod written_datums;
#[cfg(test)]
mod written_metadata;
#[cfg(test)]
mod written_rows;
