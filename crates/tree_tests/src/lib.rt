//! Tables of labels, keys, maps and changes laid over maps: what no clause of dewey_labels, tree_model, node_seq and overlays says by itself, as values worked by hand.
#![tactic(auto)]

#[cfg(test)]
mod labels;
#[cfg(test)]
mod layers;
#[cfg(test)]
mod maps;
#[cfg(test)]
mod new_labels;
#[cfg(test)]
mod rows;
#[cfg(test)]
mod trees;
