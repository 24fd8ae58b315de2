//! Tests of look-ups, over devices in memory: what they answer, by how many calls of which device, and what they tell of damage.
#![tactic(auto)]

#[cfg(test)]
mod asked;
#[cfg(test)]
mod damage;
#[cfg(test)]
mod drawn;
#[cfg(test)]
mod rows;
#[cfg(test)]
mod sizes;
#[cfg(test)]
mod spelled;
#[cfg(test)]
mod stacks;
#[cfg(test)]
mod store;
