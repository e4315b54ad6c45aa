//! The worked cases of the top call, as tables over a folder and a sink in memory, and those of containers.
#![tactic(auto)]

#[cfg(test)]
mod certificates;
#[cfg(test)]
mod container_rows;
#[cfg(test)]
mod containers;
#[cfg(test)]
mod hostile;
#[cfg(test)]
mod made;
#[cfg(test)]
mod matrices;
#[cfg(test)]
mod planned;
#[cfg(test)]
mod refusals;
#[cfg(test)]
mod runs;
#[cfg(test)]
mod shards;
#[cfg(test)]
mod texts;
#[cfg(test)]
mod trees;
#[cfg(test)]
mod words;
