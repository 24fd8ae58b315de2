//! Tests of scripts and of replies, over what pb_script and pb_reply make public.
#![tactic(auto)]

#[cfg(test)]
mod drawn;
#[cfg(test)]
mod replies;
#[cfg(test)]
mod scripts;
