mod members;
mod printing;
mod pushing;
mod reading;
mod refusing;
