mod command;
mod network;
